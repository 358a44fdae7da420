ghost use Rattle.std.specs.Prelude.{◌<◌, ◌^◌, length};

use c_lex::lex;
use c_parse::{ParseErr, one_tree_for_each_list, parse, parse_expression};
use c_tree::{
    BlockItem, Expr, ExprKind, External, StatementKind, Tree, expr_height, height, nodes,
};
use std::alloc::Global;
use std::process::Abort;
use std::test::Fail;

fn shown_kind(expr: &Expr) -> &'static str {
    match &expr.kind {
        ExprKind::Name(_) => "name",
        ExprKind::Number { .. } => "number",
        ExprKind::Paren(_) => "paren",
        ExprKind::Call { .. } => "call",
        ExprKind::Cast { .. } => "cast",
        ExprKind::Binary { .. } => "binary",
        ExprKind::Assign { .. } => "assign",
        ExprKind::SizeofExpr(_) => "sizeof",
        ExprKind::SizeofType(_) => "sizeof type",
        _ => "other",
    }
}

/// What an expression is, the left and the right of a binary operator or an assignment, its height and its line.
fn shown(alloc: Global, expr: &Expr) -> Result<String, Fail> {
    let (left, right) = match &expr.kind {
        ExprKind::Binary { left, right, .. }
        | ExprKind::Assign {
            place: left,
            value: right,
            ..
        } => (shown_kind(left.get()), shown_kind(right.get())),
        _ => ("", ""),
    };
    let kind = shown_kind(expr);
    let height = expr_height(expr);
    let line = expr.line;
    Ok(format!(in alloc; "{kind} {left} {right} {height} {line}")?)
}

/// The expression of a source of C, or the refusal.
fn shown_source(alloc: Global, source: &[u8]) -> Result<String, Fail>
    requires { length source.now < 2 ^ 32 }
{
    let tokens = lex(alloc, source)?;
    match parse_expression(alloc, tokens.as_slice()) {
        Ok(found) => shown(alloc, &found),
        Err(ParseErr::Syntax { token }) => Ok(format!(in alloc; "syntax {token}")?),
        Err(ParseErr::NoMemory) => Ok(format!(in alloc; "no memory")?),
    }
}

/// Each source of a table is shown so.
fn are_shown(rt: &impl Abort, alloc: Global, table: &[(&str, &str)]) -> Result<(), Fail> {
    for (source, wanted) in table {
        assert!(rt; source.len() < 1000);
        let found = shown_source(alloc, source.as_bytes())?;
        assert_eq!(rt; found.as_str(), *wanted, "{source}");
    }
    Ok(())
}

#[test]
fn a_name_is_an_expression(rt: HostRuntime) -> Result<(), Fail> {
    one_tree_for_each_list();
    are_shown(&rt, rt.alloc(), &[("x", "name   1 1")])
}

#[test]
fn operators_group_by_their_ranks(rt: HostRuntime) -> Result<(), Fail> {
    are_shown(
        &rt,
        rt.alloc(),
        &[
            ("a - b - c", "binary binary name 3 1"),
            ("a + b * c", "binary name binary 3 1"),
            ("\na = b = c", "assign name assign 3 2"),
            ("a = b + c = d", "assign name assign 4 1"),
            ("(int) a * b", "binary cast name 3 1"),
            ("(a) * b", "binary paren name 3 1"),
            ("sizeof (int)", "sizeof type   1 1"),
            ("f(a, b)", "call   2 1"),
        ],
    )
}

#[test]
fn what_is_no_expression_is_refused(rt: HostRuntime) -> Result<(), Fail> {
    are_shown(
        &rt,
        rt.alloc(),
        &[
            ("", "syntax 0"),
            ("a b", "syntax 1"),
            ("(a", "syntax 2"),
            ("a =", "syntax 2"),
            ("a + ;", "syntax 2"),
            ("++(int) a", "syntax 2"),
            ("++(int\n)", "syntax 2"),
            ("sizeof ++(char *\n", "syntax 3"),
            ("++(a) b", "syntax 4"),
            ("a ? b ; c", "syntax 3"),
            ("a.1", "syntax 2"),
        ],
    )
}

#[test]
fn a_refusal_names_its_token(rt: HostRuntime) -> Result<(), Fail> {
    let refusals = [
        (
            ParseErr::Syntax { token: 7 },
            "no tree goes on with token 7",
        ),
        (ParseErr::NoMemory, "memory ran out"),
    ];
    for (refusal, wanted) in refusals {
        let text = format!(in rt.alloc(); "{refusal}")?;
        assert_eq!(rt; text.as_str(), wanted);
    }
    Ok(())
}

/// How many parts stand outside functions, the nodes and the height of a source's tree, or the refusal.
fn shown_tree(alloc: Global, source: &[u8]) -> Result<String, Fail>
    requires { length source.now < 2 ^ 32 }
{
    let tokens = lex(alloc, source)?;
    match parse(alloc, tokens.as_slice()) {
        Ok(tree) => {
            let parts = tree.externals.len();
            let nodes = nodes(&tree);
            let height = height(&tree);
            Ok(format!(in alloc; "{parts} {nodes} {height}")?)
        }
        Err(ParseErr::Syntax { token }) => Ok(format!(in alloc; "syntax {token}")?),
        Err(ParseErr::NoMemory) => Ok(format!(in alloc; "no memory")?),
    }
}

/// Each source of a table is shown so.
fn are_trees(rt: &impl Abort, alloc: Global, table: &[(&str, &str)]) -> Result<(), Fail> {
    for (source, wanted) in table {
        assert!(rt; source.len() < 1000);
        let found = shown_tree(alloc, source.as_bytes())?;
        assert_eq!(rt; found.as_str(), *wanted, "{source}");
    }
    Ok(())
}

#[test]
fn programs_are_trees_of_their_nodes(rt: HostRuntime) -> Result<(), Fail> {
    are_trees(
        &rt,
        rt.alloc(),
        &[
            ("", "0 0 0"),
            (
                "int g; int f(int n){ if (n < 1) return 0; return n + f(n - 1); } int main(void){ g = f(10); return 0; }",
                "3 25 6",
            ),
            (
                "unsigned ring[8]; unsigned *head = ring; unsigned avg;\
              void put(unsigned v) { *head = v; head++; if (head == ring + 8) head = ring; }\
              unsigned mean(void) { unsigned s = 0; int i; for (i = 0; i < 8; i++) s += ring[i]; return s / 8; }\
              int main(void) { int i; for (i = 0; i < 16; i++) put(sense(0)); avg = mean(); emit(avg); return 0; }",
                "6 75 6",
            ),
            (
                "@expires_after(1000 ms) int x; int g; int main(void) { int i; x @= sense(0); checkpoint();\
              for (i = 0; i < 1000; i++) ; @expires(x) { g = 1; } catch { g = 2; } return 0; }",
                "3 33 5",
            ),
            (
                "@expires_after(1 s) int x; @expires_after(1 min) int y; int g; int h;\
              void wait(void) { int i; for (i = 0; i < 1000; i++) ; }\
              int main(void) { int k; k = 3; x @= 1;\
              @expires(x) { g = 4; k = 9; emit(5); y @= 6; wait(); } catch { h = k; } return 0; }",
                "6 50 5",
            ),
            (
                "struct s { int a[2], *b; char c; } x = { { 1, 2 }, &g, }; static struct s *f(struct s *, int [], char);",
                "2 10 4",
            ),
            (
                "void f(int n) { do switch (n) { case 1: case 2: break; default: continue; } while (n); }",
                "1 9 4",
            ),
        ],
    )
}

#[test]
fn nodes_and_heights_are_those_worked_out(rt: HostRuntime) -> Result<(), Fail> {
    are_trees(
        &rt,
        rt.alloc(),
        &[
            ("struct S { int x[(3)]; } x;", "1 4 3"),
            ("static int x[(3)] = {1, {2},}, x;", "1 8 4"),
            (
                "int f(int a[][2]) { if (a) { ; } else return sizeof (int[4]); }",
                "1 9 5",
            ),
            (
                "int f(int a[][2]) { switch (b) { case 1: default: break; f(x, y - 1); } }",
                "1 13 6",
            ),
            (
                "int f(int a[][2]) { @expires(t[i]) { x @= 1; } catch { ; } }",
                "1 8 4",
            ),
            (
                "int f(int a[][2]) { for (int x[(3)] = {1, {2},}, x; ; ) @timely(v, 5 s) ; }",
                "1 14 6",
            ),
        ],
    )
}

#[test]
fn what_is_no_program_is_refused(rt: HostRuntime) -> Result<(), Fail> {
    are_trees(
        &rt,
        rt.alloc(),
        &[
            ("int ;", "syntax 1"),
            ("int a b;", "syntax 2"),
            ("int a[];", "syntax 3"),
            ("int a = ;", "syntax 3"),
            ("struct s { };", "syntax 3"),
            ("static struct s { int a; };", "syntax 3"),
            ("int f(int a[][]);", "syntax 8"),
            ("int f(int) { }", "syntax 5"),
            ("int f(int n) return 0;", "syntax 6"),
            ("int main(void){return 0}", "syntax 8"),
            ("int f(void){ break; }", "syntax 6"),
            (
                "int f(void){ switch (1) { case 1: continue; } }",
                "syntax 14",
            ),
            ("int f(void){ else ; }", "syntax 6"),
            ("@expires_after(1 h) int x;", "syntax 3"),
            ("@expires_after(1 s) int f(void);", "syntax 7"),
        ],
    )
}

/// Whether the first statement of the first function is an `if` without `else` that has one with `else` in it.
fn has_inner_else(tree: &Tree) -> bool {
    let Some(External::Function { function, .. }) = tree.externals.get(0) else {
        return false;
    };
    let Some(body) = &function.body else {
        return false;
    };
    let Some(BlockItem::Statement(outer)) = body.items.get(0) else {
        return false;
    };
    let StatementKind::If { yes, no: None, .. } = &outer.kind else {
        return false;
    };
    matches!(&yes.get().kind, StatementKind::If { no: Some(_), .. })
}

#[test]
fn an_else_belongs_to_the_nearest_if(rt: HostRuntime) -> Result<(), Fail> {
    let alloc = rt.alloc();
    let tokens = lex(
        alloc,
        b"int f(int a){ if (a) if (a) return 1; else return 2; return 3; }",
    )?;
    let tree = parse(alloc, tokens.as_slice())?;
    assert!(rt; has_inner_else(&tree));
    Ok(())
}

#[test]
fn a_text_that_ends_early_is_refused_at_its_end(rt: HostRuntime) -> Result<(), Fail> {
    let alloc = rt.alloc();
    let tokens = lex(
        alloc,
        b"int g; int f(int n){ if (n < 1) return 0; return n + f(n - 1); } int main(void){ g = f(10); return 0; }",
    )?;
    let tokens = tokens.as_slice();
    let mut whole = 0u32;
    for count in 0..tokens.len() {
        match parse(alloc, &tokens[..count]) {
            Ok(_) => whole = whole.saturating_add(1),
            Err(fault) => assert!(rt;
                matches!(fault, ParseErr::Syntax { token } if token as usize == count),
                "{count}"
            ),
        }
    }
    // Nothing, `int g;`, and that with the first function.
    assert_eq!(rt; whole, 3);
    Ok(())
}

/// A text of one part many times, and behind it another as often.
#[derive(Clone, Copy)]
struct Long {
    front: &'static str,
    open: &'static str,
    times: u32,
    middle: &'static str,
    close: &'static str,
    end: &'static str,
}

fn shown_long(rt: &impl Abort, alloc: Global, long: &Long) -> Result<String, Fail> {
    let mut text = String::from_str(alloc, long.front)?;
    for _turn in 0..long.times {
        text.push_str(long.open)?;
    }
    text.push_str(long.middle)?;
    for _turn in 0..long.times {
        text.push_str(long.close)?;
    }
    text.push_str(long.end)?;
    assert!(rt; text.len() <= 262_144);
    shown_tree(alloc, text.as_bytes())
}

/// Each text of a table is shown so.
fn are_long(rt: &impl Abort, alloc: Global, table: &[(Long, &str)]) -> Result<(), Fail> {
    for (long, wanted) in table {
        let found = shown_long(rt, alloc, long)?;
        assert!(rt;
            found.as_str().starts_with(*wanted),
            "{} {}: {found}",
            long.front,
            long.open
        );
    }
    Ok(())
}

fn repeated(front: &'static str, open: &'static str, times: u32, end: &'static str) -> Long {
    Long {
        front,
        open,
        times,
        middle: "",
        close: "",
        end,
    }
}

fn in_parentheses(times: u32) -> Long {
    Long {
        front: "int x = ",
        open: "(",
        times,
        middle: "1",
        close: ")",
        end: ";",
    }
}

#[test]
fn trees_are_400_high_at_most(rt: HostRuntime) -> Result<(), Fail> {
    are_long(
        &rt,
        rt.alloc(),
        &[
            (in_parentheses(398), "1 400 400"),
            (in_parentheses(399), "syntax"),
            (
                repeated("int f(void){ if (1)", " if (1)", 397, " ; }"),
                "1 798 400",
            ),
            (
                repeated("int f(void){ if (1)", " if (1)", 398, " ; }"),
                "syntax",
            ),
            (repeated("int x = 1", " + 1", 398, ";"), "1 798 400"),
            (repeated("int x = 1", " + 1", 399, ";"), "syntax 800"),
        ],
    )
}

#[test]
fn long_texts_are_answered(rt: HostRuntime) -> Result<(), Fail> {
    are_long(
        &rt,
        rt.alloc(),
        &[
            (repeated("", "int a;", 43_690, ""), "43690 43690 1"),
            (repeated("", "(", 262_144, ""), "syntax 0"),
            (repeated("int f(void){", "(", 262_132, ""), "syntax"),
            (repeated("int f(void){", "{", 262_132, ""), "syntax"),
            (repeated("int f(void){", "if(1)", 52_426, ""), "syntax"),
            (repeated("int f(void){", "-", 262_132, ""), "syntax"),
            (repeated("int f(void){", "a=", 131_066, ""), "syntax"),
            (repeated("int x=", "{", 262_138, ""), "syntax"),
        ],
    )
}
