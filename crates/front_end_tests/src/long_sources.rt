//! Long sources, and sources that are nested 200 deep and one deeper.

use crate::trees::{body_length, program_of, refusal};
use c_parser::ParseError;
use std::alloc::Global;
use std::process::Abort;
use std::test::Fail;

fn repeat(source: &mut Vec<u8>, text: &str, count: usize) -> Result<(), Fail> {
    for _ in 0..count {
        source.extend_from_slice(text.as_bytes())?;
    }
    Ok(())
}

fn check_length(rt: &impl Abort, alloc: Global, source: &[u8], want: usize) -> Result<(), Fail> {
    let program = program_of(rt, alloc, source)?;
    assert_eq!(rt; body_length(&program), Some(want));
    Ok(())
}

#[test]
fn many_statements(rt: HostRuntime) -> Result<(), Fail> {
    let mut source = Vec::new(rt.alloc());
    source.extend_from_slice(b"int main(){ ".as_slice())?;
    repeat(&mut source, "x;", 50_000)?;
    source.extend_from_slice(b" }".as_slice())?;
    check_length(&rt, rt.alloc(), source.as_slice(), 50_000)
}

/// A source that holds `open` and `close` so many times around its middle.
struct Nested {
    before: &'static str,
    open: &'static str,
    middle: &'static str,
    close: &'static str,
    after: &'static str,
    /// How often without a fault.
    most: u8,
    /// The first token that is nested above 200 where there is one more.
    token: u32,
}

fn source_of(alloc: Global, nested: &Nested, count: usize) -> Result<Vec<u8>, Fail> {
    let mut source = Vec::new(alloc);
    source.extend_from_slice(nested.before.as_bytes())?;
    repeat(&mut source, nested.open, count)?;
    source.extend_from_slice(nested.middle.as_bytes())?;
    repeat(&mut source, nested.close, count)?;
    source.extend_from_slice(nested.after.as_bytes())?;
    Ok(source)
}

fn check_nested(rt: &impl Abort, alloc: Global, nested: &Nested) -> Result<(), Fail> {
    let most = usize::from(nested.most);
    let source = source_of(alloc, nested, most)?;
    let found = refusal(rt, alloc, source.as_slice())?;
    assert_eq!(rt; found, None, "{} {most} times", nested.open);
    let deeper = source_of(alloc, nested, most + 1)?;
    let refused = refusal(rt, alloc, deeper.as_slice())?;
    let want = ParseError::DepthFault {
        token: nested.token,
    };
    assert_eq!(rt; refused, Some(want), "{} one more", nested.open);
    Ok(())
}

static STATEMENTS: [Nested; 6] = [
    Nested {
        before: "int main(){ ",
        open: "{",
        middle: "",
        close: "}",
        after: " }",
        most: 199,
        token: 204,
    },
    Nested {
        before: "int main(){ ",
        open: "while (a) ",
        middle: ";",
        close: "",
        after: " }",
        most: 198,
        token: 799,
    },
    Nested {
        before: "int main(){ ",
        open: "if (a) ",
        middle: ";",
        close: "",
        after: " }",
        most: 198,
        token: 799,
    },
    Nested {
        before: "int main(){ ",
        open: "if (a) ; else ",
        middle: ";",
        close: "",
        after: " }",
        most: 198,
        token: 1195,
    },
    Nested {
        before: "int main(){ ",
        open: "do ",
        middle: ";",
        close: " while (a);",
        after: " }",
        most: 198,
        token: 204,
    },
    Nested {
        before: "int main(){ ",
        open: "for (;;) ",
        middle: ";",
        close: "",
        after: " }",
        most: 198,
        token: 1000,
    },
];

static EXPRESSIONS: [Nested; 8] = [
    Nested {
        before: "int main(){ return ",
        open: "- ",
        middle: "a",
        close: "",
        after: "; }",
        most: 197,
        token: 203,
    },
    Nested {
        before: "int main(){ return ",
        open: "(int)",
        middle: "a",
        close: "",
        after: "; }",
        most: 197,
        token: 597,
    },
    Nested {
        before: "int main(){ return ",
        open: "a = ",
        middle: "b",
        close: "",
        after: "; }",
        most: 197,
        token: 402,
    },
    Nested {
        before: "int main(){ return ",
        open: "a ? b : ",
        middle: "c",
        close: "",
        after: "; }",
        most: 197,
        token: 796,
    },
    Nested {
        before: "int main(){ return ",
        open: "f(",
        middle: "a",
        close: ")",
        after: "; }",
        most: 197,
        token: 402,
    },
    Nested {
        before: "int main(){ return 1",
        open: "+1",
        middle: "",
        close: "",
        after: "; }",
        most: 197,
        token: 402,
    },
    Nested {
        before: "int main(){ return a",
        open: "[0]",
        middle: "",
        close: "",
        after: "; }",
        most: 197,
        token: 599,
    },
    Nested {
        before: "int main(){ return a",
        open: ".b",
        middle: "",
        close: "",
        after: "; }",
        most: 198,
        token: 403,
    },
];

static DECLARATORS: [Nested; 2] = [
    Nested {
        before: "long ",
        open: "*",
        middle: "a",
        close: "",
        after: ";",
        most: 201,
        token: 202,
    },
    Nested {
        before: "int (*f)(",
        open: "int (*)(",
        middle: "",
        close: ")",
        after: ");",
        most: 200,
        token: 1006,
    },
];

#[test]
fn deep_sources(rt: HostRuntime) -> Result<(), Fail> {
    for nested in &STATEMENTS {
        check_nested(&rt, rt.alloc(), nested)?;
    }
    for nested in &EXPRESSIONS {
        check_nested(&rt, rt.alloc(), nested)?;
    }
    for nested in &DECLARATORS {
        check_nested(&rt, rt.alloc(), nested)?;
    }
    Ok(())
}
