use crate::calls::{call, repeated};
use std::alloc::Global;
use std::process::Abort;
use std::test::Fail;

/// A program that reads nothing, and what it means.
const STORE: &str = "int g; int main(void){g=5;return 0;}";

const STORED: &str = "marks 3\nset g 5\nouts 0\nend done\n";

/// Checks what `meaning c t` answers and prints.
fn expect_meaning(
    rt: &impl Abort,
    alloc: Global,
    source: &str,
    readings: &str,
    status: u8,
    text: &str,
) -> Result<(), Fail> {
    let seen = call(alloc, &["meaning", "c", "t"], source, readings, &[], &[])?;
    assert_eq!(rt; seen.status, status, "at {source}");
    assert_eq!(rt; seen.printed.as_slice(), text.as_bytes(), "at {source}");
    assert_eq!(rt; seen.records, 0, "at {source}");
    Ok(())
}

#[test]
fn a_program_means_its_last_state(rt: HostRuntime) -> Result<(), Fail> {
    for (source, text) in [
        (STORE, STORED),
        (
            "int q; int r; unsigned w; int main(void){int n; n=-7; q=n/2; r=n%2; w=65535u+1; return 0;}",
            "marks 5\nset q -3\nset r -1\nset w 0\nouts 0\nend done\n",
        ),
        (
            "int g; int f(int n){ if (n < 1) return 0; return n + f(n - 1); } int main(void){ g = f(10); return 0; }",
            "marks 25\nset g 55\nouts 0\nend done\n",
        ),
        (
            "char c; int a[2]; int *p = &a[1]; int main(void){c=300;return 1;}",
            "marks 3\nset c 44\nset a[0] 0\nset a[1] 0\nset p 4004\nouts 0\nend done\n",
        ),
        (
            "int *p; int main(void){int n; p=&n; return 0;}",
            "marks 3\nset p ?\nouts 0\nend done\n",
        ),
    ] {
        expect_meaning(&rt, rt.alloc(), source, "", 0, text)?;
    }
    Ok(())
}

#[test]
fn what_is_undefined_is_named_with_its_line(rt: HostRuntime) -> Result<(), Fail> {
    for (source, text) in [
        (
            "int q; int main(void){int n; n=-32767; n=n-1; q=n/-1; return 0;}",
            "end undefined U1 line 1\n",
        ),
        (
            "int a[2]; int main(void){int *p; p=a; p=p+3; return 0;}",
            "end undefined U4 line 1\n",
        ),
        (
            "int q; int main(void){int n; n=1;\nq=n\n/0; return 0;}",
            "end undefined U2 line 2\n",
        ),
    ] {
        expect_meaning(&rt, rt.alloc(), source, "", 0, text)?;
    }
    Ok(())
}

#[test]
fn a_program_takes_its_readings(rt: HostRuntime) -> Result<(), Fail> {
    let source = "int main(void){emit(sense(1));return 0;}";
    for (readings, text) in [
        ("sense 1 7\n", "marks 4\nouts 1\nout 0 7\nend done\n"),
        (
            "# one\r\n\nsense 1 65535\nclock 4\nclock 4",
            "marks 4\nouts 1\nout 0 65535\nend done\n",
        ),
        ("", "end reading\n"),
        ("clock 1", "end reading\n"),
    ] {
        expect_meaning(&rt, rt.alloc(), source, readings, 0, text)?;
    }
    Ok(())
}

#[test]
fn the_source_is_refused_before_the_readings(rt: HostRuntime) -> Result<(), Fail> {
    for (source, text) in [
        ("", "source E8\n"),
        ("/* x", "source L2 line 1\n"),
        ("int main(void){return 0}", "source P1 line 1\n"),
        ("int main(void){return x;}", "source E1 line 1\n"),
        (
            "int g;\nint g;int main(void){return 0;}",
            "source E2 line 2\n",
        ),
    ] {
        expect_meaning(&rt, rt.alloc(), source, "no reading", 1, text)?;
        let words = ["meaning", "c", "missing"];
        let seen = call(rt.alloc(), &words, source, "", &[], &[])?;
        assert_eq!(rt; seen.status, 1);
        assert_eq!(rt; seen.read_faults, 0);
    }
    let source = "@expires_after(5 s) int x; int main(void){return y;}";
    expect_meaning(&rt, rt.alloc(), source, "no reading", 13, "unsupported\n")?;
    Ok(())
}

#[test]
fn refused_readings_are_named_with_their_line(rt: HostRuntime) -> Result<(), Fail> {
    for (readings, text) in [
        ("no reading", "readings W1 line 1\n"),
        ("clock 5\nclock 4", "readings W1 line 2\n"),
        ("# two\n\nsense 16 0\n", "readings W1 line 3\n"),
        ("tics-trace 1\n", "readings W1 line 1\n"),
    ] {
        expect_meaning(&rt, rt.alloc(), STORE, readings, 3, text)?;
    }
    Ok(())
}

#[test]
fn readings_have_at_most_1048576_bytes(rt: HostRuntime) -> Result<(), Fail> {
    let alloc = rt.alloc();
    let readings = repeated(alloc, "", "#", 1_048_576, "")?;
    expect_meaning(&rt, alloc, STORE, readings.as_str(), 0, STORED)?;
    let readings = repeated(alloc, "?", readings.as_str(), 1, "")?;
    expect_meaning(&rt, alloc, STORE, readings.as_str(), 3, "readings W2\n")?;
    Ok(())
}

#[test]
fn a_read_that_fails_is_a_read_fault(rt: HostRuntime) -> Result<(), Fail> {
    for (source, readings, fails) in [
        ("missing", "t", [9]),
        ("c", "missing", [9]),
        ("c", "t", [1]),
        ("c", "t", [2]),
    ] {
        let words = ["meaning", source, readings];
        let seen = call(rt.alloc(), &words, STORE, "", &fails, &[])?;
        assert_eq!(rt; seen.status, 8);
        assert_eq!(rt; seen.printed.as_slice(), b"fault read\n".as_slice());
        assert_eq!(rt; seen.read_faults, 1);
        assert_eq!(rt; seen.records, 0);
    }
    Ok(())
}

#[test]
fn a_put_that_fails_is_a_write_fault(rt: HostRuntime) -> Result<(), Fail> {
    for (source, readings) in [(STORE, ""), (STORE, "?"), ("", ""), ("@", "")] {
        let words = ["meaning", "c", "t"];
        let seen = call(rt.alloc(), &words, source, readings, &[], &[1])?;
        assert_eq!(rt; seen.status, 9);
        assert!(rt; seen.printed.is_empty());
        assert_eq!(rt; seen.put_faults, 1);
        assert_eq!(rt; seen.records, 0);
    }
    Ok(())
}
