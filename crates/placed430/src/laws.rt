ghost use Rattle.std.specs.Prelude.{◌≡◌, ℕ, ◌+◌, ◌*◌, List, ◌++◌, map, IsTrue};
ghost use Rattle.isa430.specs.Table.{WordsAt};
ghost use Rattle.run430.specs.Code.{Placed};
ghost use Rattle.asm430.specs.declared.item.Item.{Item};
ghost use Rattle.asm430.specs.declared.item.Item.TheVariants.{Word};
ghost use Rattle.asm430.specs.Assembly.{words_in};
ghost use Rattle.asm430.specs.Instructions.{instrs_from, are_code};
ghost use Rattle.placed430.specs.Assembled.{IsAssembled, address_of, end_of, size_of_code};

/// In a memory that holds the words of assembled items as code, the instructions of each part of the items that has no
/// plain words stand from the part's address on, up to what stands behind the part, and plain words one after another stand
/// from theirs.
pub fn assembled_code_is_placed()
    ensures code { (items : List Item) → (words : List ℕ) → (m : ℕ → ℕ) → IsAssembled items words m → (front part back : List Item) → items ≡ front ++ (part ++ back) → IsTrue (are_code part) → Placed m 0x8000 (end_of items) (address_of front) (instrs_from items (words_in front) part) }
    ensures behind { (items : List Item) → (front part : List Item) → IsTrue (are_code part) → address_of (front ++ part) ≡ address_of front + size_of_code (instrs_from items (words_in front) part) }
    ensures words { (items : List Item) → (words : List ℕ) → (m : ℕ → ℕ) → IsAssembled items words m → (front : List Item) → (plain : List ℕ) → (back : List Item) → items ≡ front ++ (map Word plain ++ back) → WordsAt m (address_of front) plain }
{}
