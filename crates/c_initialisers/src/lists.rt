//! Brace lists (C99 6.7.8): which expression is put into which scalar of an object.

ghost use Rattle.std.specs.Prelude.{◌≡◌, ◌+◌, ◌-◌, ◌++◌, ◌∷◌, [], ◌&&◌, ◌<◌, ◌≤◌, drop, get_or, is_some, length, map, replicate, slice_get, IfOk, OnOk, Ok, None, Some};
ghost use Rattle.c_typing.specs.Outcome.{Answers};
ghost use Rattle.c_checking.specs.Initialisers as spec;
ghost use Rattle.c_initialisers.specs.Scalars.{no_leaf};
ghost use Rattle.c_initialisers.specs.Lists as list;

use crate::constants::initial_value;
use crate::scalars::{count_of, scalar_of, structs_counted};
use base16::{NoMemory, Sequence};
use c_conversions::broken;
use c_declarators::converted_value;
use c_exprs::valued;
use c_tree::{Expr as Source, Initial};
use c_typing::{Env, Rule, Stop};
use core_tree::{Expr, Struct, Ty};
use sqlite_items::Boxed;
use std::alloc::Global;

/// An expression that is put into a scalar, and the line of the item.
#[derive(Drop)]
pub(crate) struct Put {
    pub value: Boxed<Expr>,
    pub line: u32,
}

/// An object that a brace list initialises: its type, where the scalars of the members of each struct begin, how many
/// scalars it has, and whether all of its values are to be constant.
#[derive(Drop)]
pub(crate) struct Object<'a> {
    pub env: &'a Env,
    pub ty: &'a Ty,
    pub known: Sequence<Option<Sequence<u32>>>,
    pub total: u32,
    pub constant: bool,
}

/// The scalars that are in front of an item: from one to another, where the item is inside so many of the objects that begin
/// at the first. Whether each item before had a scalar and converted to its type.
#[derive(Clone, Copy)]
pub(crate) struct Cursor {
    pub from: u32,
    pub to: u32,
    pub outer: u32,
    pub fits: bool,
}

/// What is put into a scalar.
fn put_in(line: u32, value: Option<Boxed<Expr>>) -> Option<Put>
    ensures { list.given_of result ≡ list.value_given line value }
{
    match value {
        None => None,
        Some(value) => Some(Put { value, line }),
    }
}

/// The cursor behind the first scalar.
fn next(at: Cursor, fits: bool) -> Cursor
    requires { at.from < at.to }
    ensures { result ≡ record { from = at.from + 1; to = at.to; outer = 0; fits = at.fits && fits } }
{
    Cursor {
        from: at.from + 1,
        to: at.to,
        outer: 0,
        fits: at.fits && fits,
    }
}

/// The cursor where an item had no scalar or no object.
fn unfit(at: Cursor) -> Cursor
    ensures { result ≡ list.unfit at }
{
    Cursor {
        from: at.from,
        to: at.to,
        outer: at.outer,
        fits: false,
    }
}

/// An expression is for the first scalar.
fn assign(
    alloc: Global,
    source: &Source,
    object: &Object<'_>,
    at: Cursor,
    into: &mut Sequence<Option<Put>>,
) -> Result<Cursor, Stop>
    requires { list.IsObject object.now }
    ensures { list.Fills (list.all_leaves object.now) (list.behind (list.all_given into.old) at.fits
        (list.assigned object.now source.now (list.ahead (list.all_leaves object.now) at))) result into.new }
{
    let value = valued(alloc, object.env, source)?;
    if at.from >= at.to {
        return Ok(unfit(at));
    }
    let structs = object.env.structs.as_slice();
    let (ty, _) = scalar_of(
        structs,
        object.known.as_slice(),
        object.ty,
        at.from,
        at.outer,
    )?;
    let value = converted_value(alloc, ty, value)?;
    let fits = value.is_some();
    into.push(put_in(source.line, value))?;
    Ok(next(at, fits))
}

/// The line of a value that is not constant.
fn changing(structs: &[Struct], put: &Option<Put>) -> Result<Option<u32>, NoMemory>
    ensures { IfOk result (λ line. line ≡ list.bad_in (spec.is_constant structs.now) (list.given_of put.now)) }
{
    match put {
        None => Ok(None),
        Some(put) => match initial_value(structs, put.value.get())? {
            None => Ok(Some(put.line)),
            Some(_) => Ok(None),
        },
    }
}

/// The line of the first value that is not constant.
#[tactic(auto, using(crate::proofs::Filling::bad_turn, crate::proofs::Filling::bad_here, crate::proofs::Filling::bad_end))]
fn first_changing(structs: &[Struct], puts: &[Option<Put>]) -> Result<Option<u32>, NoMemory>
    ensures { IfOk result (λ line. line ≡ list.first_bad (spec.is_constant structs.now) (list.all_given puts.now)) }
{
    for put in puts {
        if let Some(line) = changing(structs, put)? {
            return Ok(Some(line));
        }
    }
    Ok(None)
}

/// The line of the first value that may not stand in an object.
fn first_bad(object: &Object<'_>, puts: &[Option<Put>]) -> Result<Option<u32>, NoMemory>
    ensures { IfOk result (λ line. line ≡ list.first_bad (list.may object.now) (list.all_given puts.now)) }
{
    if object.constant {
        first_changing(object.env.structs.as_slice(), puts)
    } else {
        Ok(None)
    }
}

/// Puts nothing into so many scalars.
#[tactic(auto, using(crate::proofs::Filling::zeros_turn))]
fn put_zeros(count: u32, into: &mut Sequence<Option<Put>>) -> Result<(), NoMemory>
    ensures { OnOk result (list.all_given into.new ≡ list.all_given into.old ++ replicate count None) }
{
    for _scalar in 0..count {
        into.push(None)?;
    }
    Ok(())
}

/// A list is judged at its line when its items are walked; the scalars that it leaves out are zero. What it puts stands
/// behind the first so many values.
#[tactic(auto, using(crate::proofs::Filling::judged_unfit))]
fn judge(
    line: u32,
    start: usize,
    object: &Object<'_>,
    at: Cursor,
    into: &mut Sequence<Option<Put>>,
) -> Result<(), Stop>
    requires { list.IsObject object.now }
    ensures { list.Puts (list.judged object.now line start at into.old) result into.new }
{
    if !at.fits {
        return Err(broken(Rule::WrongType, line));
    }
    if start > into.len() || at.to > object.total {
        return Err(Stop::NoMemory);
    }
    match first_bad(object, &into.as_slice()[start..])? {
        Some(bad) => Err(broken(Rule::NotConstant, bad)),
        None => Ok(put_zeros(at.to.saturating_sub(at.from), into)?),
    }
}

/// The cursor inside an object of so many scalars that begins at the first, and the one behind it.
fn parted(at: Cursor, count: u32) -> Result<(Cursor, Cursor), NoMemory>
    ensures { IfOk result (λ parts. list.IsParted at count parts.0 parts.1) }
{
    if count == 0 || at.to < at.from || at.to - at.from < count || at.outer == u32::MAX {
        return Err(NoMemory);
    }
    let end = at.from + count;
    let inner = Cursor {
        from: at.from,
        to: end,
        outer: at.outer + 1,
        fits: true,
    };
    let behind = Cursor {
        from: end,
        to: at.to,
        outer: 0,
        fits: at.fits,
    };
    Ok((inner, behind))
}

/// A list with no object for it: only what stands in it is walked.
#[cycle(lists)]
fn lost(alloc: Global, items: &[Initial], object: &Object<'_>, at: Cursor) -> Result<Cursor, Stop>
    requires { list.IsObject object.now }
    ensures { Answers (list.walked object.now items.now at) result }
{
    let nowhere = Cursor {
        from: 0,
        to: 0,
        outer: 0,
        fits: true,
    };
    let mut ignored = Sequence::new(alloc);
    each(alloc, items, object, nowhere, &mut ignored)?;
    Ok(unfit(at))
}

/// A list for an object of so many scalars that begins at the first.
#[cycle(lists)]
fn opened(
    alloc: Global,
    items: &[Initial],
    line: u32,
    count: u32,
    object: &Object<'_>,
    at: Cursor,
    into: &mut Sequence<Option<Put>>,
) -> Result<Cursor, Stop>
    requires is_object { list.IsObject object.now }
    requires here { at.from < length (list.all_leaves object.now) }
    requires object { slice_get (get_or (list.all_leaves object.now) at.from no_leaf).begins at.outer ≡ Some count }
    ensures { list.Fills (list.all_leaves object.now) (list.behind (list.all_given into.old) at.fits
        (spec.listed (list.may object.now) line (map (list.item object.now) items.now) (list.ahead (list.all_leaves object.now) at)))
        result into.new }
{
    let start = into.len();
    let (inside, behind) = parted(at, count)?;
    let end = each(alloc, items, object, inside, into)?;
    judge(line, start, object, end, into)?;
    Ok(behind)
}

/// A list is for the outermost object that begins at the first scalar.
#[cycle(lists)]
fn listed(
    alloc: Global,
    items: &[Initial],
    line: u32,
    object: &Object<'_>,
    at: Cursor,
    into: &mut Sequence<Option<Put>>,
) -> Result<Cursor, Stop>
    requires { list.IsObject object.now }
    ensures { list.Fills (list.all_leaves object.now) (list.behind (list.all_given into.old) at.fits
        (spec.listed (list.may object.now) line (map (list.item object.now) items.now) (list.ahead (list.all_leaves object.now) at)))
        result into.new }
{
    if at.from >= at.to {
        return lost(alloc, items, object, at);
    }
    let structs = object.env.structs.as_slice();
    let (_, found) = scalar_of(
        structs,
        object.known.as_slice(),
        object.ty,
        at.from,
        at.outer,
    )?;
    match found {
        None => lost(alloc, items, object, at),
        Some(count) => opened(alloc, items, line, count, object, at, into),
    }
}

/// Items one after another.
#[cycle(lists)]
fn each(
    alloc: Global,
    items: &[Initial],
    object: &Object<'_>,
    at: Cursor,
    into: &mut Sequence<Option<Put>>,
) -> Result<Cursor, Stop>
    requires { list.IsObject object.now }
    ensures { list.Fills (list.all_leaves object.now) (list.behind (list.all_given into.old) at.fits
        (list.each object.now items.now (list.ahead (list.all_leaves object.now) at))) result into.new }
{
    let mut cursor = at;
    for initial in items {
        cursor = item(alloc, initial, object, cursor, into)?;
    }
    Ok(cursor)
}

/// An item in front of scalars.
#[cycle(lists)]
fn item(
    alloc: Global,
    initial: &Initial,
    object: &Object<'_>,
    at: Cursor,
    into: &mut Sequence<Option<Put>>,
) -> Result<Cursor, Stop>
    requires { list.IsObject object.now }
    ensures { list.Fills (list.all_leaves object.now) (list.behind (list.all_given into.old) at.fits
        (list.item object.now initial.now (list.ahead (list.all_leaves object.now) at))) result into.new }
{
    match initial {
        Initial::Assign(source) => assign(alloc, source, object, at, into),
        Initial::List { items, line, .. } => {
            listed(alloc, items.as_slice(), *line, object, at, into)
        }
    }
}

/// What an initialiser puts into the scalars of an object.
#[tactic(auto, using(crate::proofs::Filling::whole_stopped))]
pub(crate) fn filled(
    alloc: Global,
    env: &Env,
    ty: &Ty,
    constant: bool,
    initial: &Initial,
) -> Result<Sequence<Option<Put>>, Stop>
    ensures { list.HasPut (spec.item env.now (list.may_of env.now.structs constant) initial.now (spec.leaves env.now.structs ty.now)) result }
{
    let structs = env.structs.as_slice();
    let known = structs_counted(alloc, structs)?;
    let Some(total) = count_of(structs, known.as_slice(), ty) else {
        return Err(Stop::NoMemory);
    };
    let object = Object {
        env,
        ty,
        known,
        total,
        constant,
    };
    let first = Cursor {
        from: 0,
        to: total,
        outer: 0,
        fits: true,
    };
    let mut into = Sequence::new(alloc);
    item(alloc, initial, &object, first, &mut into)?;
    Ok(into)
}
