ghost use Rattle.std.specs.Prelude.{◌≡◌, ℕ, List, ◌++◌, IsTrue};
ghost use Rattle.isa430.specs.declared.instr.Instr.{Instr};
ghost use Rattle.isa430.specs.Table.{valid, code_of, decode_of, decode_words};
ghost use Rattle.isa430.specs.Laws.{IsReadBack, BeginWith, StandsWhereDecoded};

/// Every valid instruction is decoded from its words, wherever they stand in a memory and whatever follows them.
pub fn decode_of_encode()
    ensures memory { (i : Instr) → IsTrue (valid i) → IsReadBack i }
    ensures list { (i : Instr) → (rest : List ℕ) → IsTrue (valid i) → decode_words (code_of i ++ rest) ≡ Some i }
{}

/// What is decoded is valid, its words are the first of those that were decoded, and they stand where it was decoded.
pub fn encode_of_decode()
    ensures valid { (w0 w1 w2 : ℕ) → (i : Instr) → decode_of w0 w1 w2 ≡ Some i → IsTrue (valid i) }
    ensures words { (w0 w1 w2 : ℕ) → (i : Instr) → decode_of w0 w1 w2 ≡ Some i → BeginWith w0 w1 w2 i }
    ensures memory { (i : Instr) → StandsWhereDecoded i }
{}
