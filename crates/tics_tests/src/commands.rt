use crate::calls::{call, repeated};
use std::alloc::Global;
use std::process::Abort;
use std::test::Fail;

const STORE: &str = "int g; int main(void){g=5;return 0;}";

const PLAIN: &str = "tics-trace 1\nrate 4000000\nperiod 4000000\ncycle 100000 0\n";

const DONE: &str =
    "on 1\ncommit 1 marks 3 instrs 0 pc 0000 sp 0000 words 0 log 0\nset g 5\nend done\n";

/// Checks what `run c t` answers and prints under the plain trace.
fn expect_run(
    rt: &impl Abort,
    alloc: Global,
    source: &str,
    status: u8,
    text: &str,
) -> Result<(), Fail> {
    let seen = call(alloc, &["run", "c", "t"], source, PLAIN, &[], &[])?;
    assert_eq!(rt; seen.status, status, "at {source}");
    assert_eq!(rt; seen.printed.as_slice(), text.as_bytes(), "at {source}");
    assert_eq!(rt;
        seen.records,
        if status == 0 { 3 } else { 0 },
        "at {source}"
    );
    Ok(())
}

#[test]
fn an_accepted_source_is_run_and_reported(rt: HostRuntime) -> Result<(), Fail> {
    for (source, text) in [
        (STORE, DONE),
        (
            "\n int\ng ;int main ( void ) {\n g = 7 ; g\n=5; return\n0 ; } \n",
            "on 1\ncommit 1 marks 4 instrs 0 pc 0000 sp 0000 words 0 log 0\nset g 5\nend done\n",
        ),
        (
            "/* one */ int g; // two\n# 9 \"first.c\"\n\tint main(void)\r\n{g=/**/5;return\x0c0;}// end",
            DONE,
        ),
        (
            "int main(void){return 0;}",
            "on 1\ncommit 1 marks 2 instrs 0 pc 0000 sp 0000 words 0 log 0\nend done\n",
        ),
        (
            "int b;int a;int _z9;int main(void){_z9=32767;a=1;a=0;b=2;b=10;return 0;}",
            "on 1\ncommit 1 marks 7 instrs 0 pc 0000 sp 0000 words 0 log 0\nset b 10\nset _z9 32767\nend done\n",
        ),
    ] {
        expect_run(&rt, rt.alloc(), source, 0, text)?;
    }
    Ok(())
}

#[test]
fn a_refused_source_is_named_with_its_line(rt: HostRuntime) -> Result<(), Fail> {
    for (source, text) in [
        ("\0", "source L1 line 1\n"),
        ("int g;\n\n  \"", "source L1 line 3\n"),
        ("@ /* x", "source L1 line 1\n"),
        ("/* x", "source L2 line 1\n"),
        ("int g;\n/* x\n", "source L2 line 2\n"),
        (
            "int g;\nint main(void){g=100000;return 0;}",
            "source L3 line 2\n",
        ),
        ("1000ms", "source L3 line 1\n"),
        ("\n\n\n'ab'", "source L4 line 4\n"),
        ("int main(void){return 0}", "source P1 line 1\n"),
        ("int int; int main(void){return 0;}", "source P1 line 1\n"),
        ("intg; int main(void){return 0;}", "source P1 line 1\n"),
        (
            "int g;\nint 9; int main(void){return 0;}",
            "source P1 line 2\n",
        ),
        (
            "int g;\nint main(void){g=5;return 0;\n",
            "source P1 line 2\n",
        ),
        ("\nint\n", "source P1 line 2\n"),
    ] {
        expect_run(&rt, rt.alloc(), source, 1, text)?;
    }
    Ok(())
}

#[test]
fn a_source_has_at_most_262144_bytes(rt: HostRuntime) -> Result<(), Fail> {
    let alloc = rt.alloc();
    let blanks = 262_144 - STORE.len();
    let source = repeated(alloc, "", " ", blanks, STORE)?;
    expect_run(&rt, alloc, source.as_str(), 0, DONE)?;
    let source = repeated(alloc, " ", source.as_str(), 1, "")?;
    expect_run(&rt, alloc, source.as_str(), 1, "source S5\n")?;
    Ok(())
}

#[test]
fn a_tree_has_at_most_20000_nodes(rt: HostRuntime) -> Result<(), Fail> {
    let alloc = rt.alloc();
    // Each `;` is a node, and main with its `return` has 3.
    let source = repeated(alloc, "int main(void){", ";", 19_998, "return 0;}")?;
    expect_run(&rt, alloc, source.as_str(), 1, "source S4\n")?;
    Ok(())
}

#[test]
fn a_front_of_a_source_is_refused_or_unsupported(rt: HostRuntime) -> Result<(), Fail> {
    let alloc = rt.alloc();
    let mut front = String::from_str(alloc, "")?;
    for letter in [
        "i", "n", "t", " ", "g", ";", " ", "i", "n", "t", " ", "m", "a", "i", "n", "(", "v", "o",
        "i", "d", ")", "{", "g", "=", "5", ";", "r", "e", "t", "u", "r", "n", " ", "0", ";", "}",
    ] {
        let seen = call(alloc, &["run", "c", "t"], front.as_str(), PLAIN, &[], &[])?;
        assert!(rt; seen.status == 1 || seen.status == 13);
        assert_eq!(rt; seen.records, 0);
        front.push_str(letter)?;
    }
    assert_eq!(rt; front.as_str(), STORE);
    Ok(())
}

#[test]
fn a_source_that_breaks_a_rule_is_named_with_its_line(rt: HostRuntime) -> Result<(), Fail> {
    for (source, text) in [
        ("int main(void){return x;}", "source E1 line 1\n"),
        ("int main(void){\nreturn x;}", "source E1 line 2\n"),
        ("int g; int main(void){h=5;return 0;}", "source E1 line 1\n"),
        (
            "int g; int main(void){g=5;\nreturn0;}",
            "source E1 line 2\n",
        ),
        (
            "int g;\nint g;int main(void){return 0;}",
            "source E2 line 2\n",
        ),
        ("int emit; int main(void){return 0;}", "source E2 line 1\n"),
        ("int main(void){return;}", "source E3 line 1\n"),
        (
            "struct s {int m;} x;\nint main(void){return x;}",
            "source E3 line 2\n",
        ),
        ("int main(void){\n\n5=1;return 0;}", "source E4 line 3\n"),
        (
            "int f(int a){return a;}\nint main(void){return f();}",
            "source E5 line 2\n",
        ),
        (
            "int f(void);int main(void){\nreturn f();}",
            "source E6 line 2\n",
        ),
        (
            "int a[9000]; int main(void){return 0;}",
            "source E7 line 1\n",
        ),
        (
            "const int c=1;int main(void){\nc=2;return 0;}",
            "source E9 line 2\n",
        ),
        (
            "int g=1;\nint h=g;int main(void){return 0;}",
            "source E10 line 2\n",
        ),
    ] {
        expect_run(&rt, rt.alloc(), source, 1, text)?;
    }
    Ok(())
}

#[test]
fn a_source_without_main_is_refused_without_a_line(rt: HostRuntime) -> Result<(), Fail> {
    for source in [
        "",
        "int g;",
        "int main(void);",
        "int main(int a){return 0;}",
        "int start(void){return 0;}",
        "unsigned main(void){return 0;}",
    ] {
        expect_run(&rt, rt.alloc(), source, 1, "source E8\n")?;
    }
    Ok(())
}

#[test]
fn a_source_is_judged_in_order(rt: HostRuntime) -> Result<(), Fail> {
    let alloc = rt.alloc();
    expect_run(
        &rt,
        alloc,
        "int main(void){return x}",
        1,
        "source P1 line 1\n",
    )?;
    let source = repeated(alloc, "int main(void){", ";", 19_998, "return x;}")?;
    expect_run(&rt, alloc, source.as_str(), 1, "source S4\n")?;
    // Annotations are not checked yet, and so nothing else is.
    let source = "@expires_after(5 s) int g; int main(void){return x;}";
    expect_run(&rt, alloc, source, 13, "unsupported\n")?;
    // The trace is not looked at before.
    let seen = call(alloc, &["run", "c", "missing"], "", PLAIN, &[], &[])?;
    assert_eq!(rt; seen.status, 1);
    assert_eq!(rt; seen.read_faults, 0);
    Ok(())
}

#[test]
fn a_program_of_another_form_is_unsupported(rt: HostRuntime) -> Result<(), Fail> {
    for source in [
        "int main(){return 0;}",
        "static int main(void){return 0;}",
        "int main(void){}",
        "int main(void){return 1;}",
        "int main(void){return 00;}",
        "int main(void){return (0);}",
        "int main(void){return 0;return 0;}",
        "int main(void){;return 0;}",
        "int g; int main(void){g=5;return 0;} int h;",
        "int main(void){int g;g=5;return 0;}",
        "int g, h; int main(void){return 0;}",
        "int *g; int main(void){return 0;}",
        "int g[1]; int main(void){return 0;}",
        "int g=0; int main(void){return 0;}",
        "signed int g; int main(void){return 0;}",
        "const int g; int main(void){return 0;}",
        "static int g; int main(void){return 0;}",
        "@expires_after(5 s) int g; int main(void){return 0;}",
        "struct s {int m;}; int main(void){return 0;}",
        "int g; int main(void){g=5+1;return 0;}",
        "int g; int main(void){g=05;return 0;}",
        "int g; int main(void){g=0x5;return 0;}",
        "int g; int main(void){g=5u;return 0;}",
        "int g; int main(void){g=(5);return 0;}",
        "int g; int main(void){(g)=5;return 0;}",
        "int g; int main(void){g+=5;return 0;}",
        "int g; int main(void){g=32768;return 0;}",
        "int g; int main(void){g=-1;return 0;}",
        "int g; int main(void){{g=5;}return 0;}",
    ] {
        expect_run(&rt, rt.alloc(), source, 13, "unsupported\n")?;
    }
    Ok(())
}

#[test]
fn another_trace_is_unsupported(rt: HostRuntime) -> Result<(), Fail> {
    let seen = call(
        rt.alloc(),
        &["run", "c", "t"],
        STORE,
        "tics-trace 1\n",
        &[],
        &[],
    )?;
    assert_eq!(rt; seen.status, 13);
    assert_eq!(rt; seen.printed.as_slice(), b"unsupported\n".as_slice());
    Ok(())
}

#[test]
fn other_words_are_no_command(rt: HostRuntime) -> Result<(), Fail> {
    let lines: [&[&str]; 14] = [
        &[],
        &["run"],
        &["run", "c"],
        &["run", "c", "t", "t"],
        &["build", "c", "t"],
        &["run", "", "t"],
        &["run", "c", "-t"],
        &["run", "--", "c"],
        &["meaning", "c"],
        &["meaning", "c", "t", "t"],
        &["meaning", "c", ""],
        &["meaning", "-c", "t"],
        &["mean", "c", "t"],
        &["Run", "c", "t"],
    ];
    for words in lines {
        let seen = call(rt.alloc(), words, STORE, PLAIN, &[], &[])?;
        assert_eq!(rt; seen.status, 2);
        assert_eq!(rt; seen.printed.as_slice(), b"usage\n".as_slice());
        assert_eq!(rt; seen.records, 0);
    }
    Ok(())
}

#[test]
fn a_read_that_fails_is_a_read_fault(rt: HostRuntime) -> Result<(), Fail> {
    for (source, fails) in [("missing", [9]), ("c", [1]), ("c", [2])] {
        let seen = call(rt.alloc(), &["run", source, "t"], STORE, PLAIN, &fails, &[])?;
        assert_eq!(rt; seen.status, 8);
        assert_eq!(rt; seen.printed.as_slice(), b"fault read\n".as_slice());
        assert_eq!(rt; seen.read_faults, 1);
        assert_eq!(rt; seen.records, 0);
    }
    Ok(())
}

#[test]
fn a_put_that_fails_is_a_write_fault(rt: HostRuntime) -> Result<(), Fail> {
    for (fails, printed) in [
        ([1], ""),
        ([2], "on 1\n"),
        (
            [4],
            "on 1\ncommit 1 marks 3 instrs 0 pc 0000 sp 0000 words 0 log 0\nset g 5\n",
        ),
    ] {
        let seen = call(rt.alloc(), &["run", "c", "t"], STORE, PLAIN, &[], &fails)?;
        assert_eq!(rt; seen.status, 9);
        assert_eq!(rt; seen.printed.as_slice(), printed.as_bytes());
        assert_eq!(rt; seen.put_faults, 1);
        assert_eq!(rt; seen.records, 3);
    }
    Ok(())
}
