use crate::lexer::{lex, one_reading, tokens_lie_in_source};
use crate::quoted::one_string;
use crate::tokens::TokenKind;
use std::alloc::Global;
use std::fmt::Write;
use std::test::Fail;

/// The tokens of a source as text: a letter for the kind, or a value, and the two places.
fn reading(rt: &impl std::process::Abort, alloc: Global, source: &[u8]) -> Result<String, Fail> {
    assert!(rt;
        source.len() < 0x1_0000_0000,
        "a source has fewer than 2^32 bytes"
    );
    let mut out = String::new(alloc);
    match lex(alloc, source) {
        Ok(tokens) => {
            for token in &tokens {
                match token.kind {
                    TokenKind::Name => write!(out, "N")?,
                    TokenKind::Keyword => write!(out, "K")?,
                    TokenKind::Num { value } => write!(out, "{value}:")?,
                    TokenKind::Char { value } => write!(out, "c{value}:")?,
                    TokenKind::Str => write!(out, "S")?,
                    TokenKind::Sign => write!(out, "")?,
                }
                write!(out, "{}-{} ", token.start, token.end)?;
            }
        }
        Err(error) => write!(out, "{error}")?,
    }
    Ok(out)
}

fn check(
    rt: &impl std::process::Abort,
    alloc: Global,
    cases: &[(&[u8], &str)],
) -> Result<(), Fail> {
    for case in cases {
        let found = reading(rt, alloc, case.0)?;
        assert_eq!(rt; found.as_str(), case.1, "{:?}", case.0);
    }
    Ok(())
}

#[test]
fn names(rt: HostRuntime) -> Result<(), Fail> {
    one_reading();
    one_string();
    tokens_lie_in_source();
    check(
        &rt,
        rt.alloc(),
        &[
            (b"", ""),
            (b" \t\r\n", ""),
            (b"a+++b", "N0-1 1-3 3-4 N4-5 "),
            (b"int ints _int Int", "K0-3 N4-8 N9-13 N14-17 "),
            (
                b"char int long void struct private if else",
                "K0-4 K5-8 K9-13 K14-18 K19-25 K26-33 K34-36 K37-41 ",
            ),
            (
                b"while for do return break continue sizeof",
                "K0-5 K6-9 K10-12 K13-19 K20-25 K26-34 K35-41 ",
            ),
            (b"a1_Z", "N0-4 "),
            (b"#", "no token at 0"),
            (b"a @", "no token at 2"),
            (b"a\x0b", "no token at 1"),
            (b"a\x0c", "no token at 1"),
            (b"a\x00", "no token at 1"),
            (b"a \x80", "no token at 2"),
            (b"a\xc3\xa9", "no token at 1"),
            (b"a\\", "no token at 1"),
        ],
    )
}

#[test]
fn comments(rt: HostRuntime) -> Result<(), Fail> {
    check(
        &rt,
        rt.alloc(),
        &[
            (b"/* a", "no token at 0"),
            (b"a /*/ b", "no token at 2"),
            (b"a /* b *", "no token at 2"),
            (b"/**/a", "N4-5 "),
            (b"/***/a", "N5-6 "),
            (b"/* /* */ */", "9-10 10-11 "),
            (b"/* \x00\x0c\xff */a", "N9-10 "),
            (b"// \x00\xff", ""),
            (b"//", ""),
            (b"a//b\rc\nd", "N0-1 N7-8 "),
            (b"a// /*\nb", "N0-1 N7-8 "),
            (b"a/ /b", "N0-1 1-2 3-4 N4-5 "),
            (b"a/b/=c", "N0-1 1-2 N2-3 3-5 N5-6 "),
        ],
    )
}

#[test]
fn numbers(rt: HostRuntime) -> Result<(), Fail> {
    check(
        &rt,
        rt.alloc(),
        &[
            (b"0 1 10 987", "0:0-1 1:2-3 10:4-6 987:7-10 "),
            (b"0L 0l 1L 1l 0x1L", "0:0-2 0:3-5 1:6-8 1:9-11 1:12-16 "),
            (b"0x0 0xaF 0x00ff", "0:0-3 175:4-8 255:9-15 "),
            (b"9223372036854775807", "9223372036854775807:0-19 "),
            (b"9223372036854775807L", "9223372036854775807:0-20 "),
            (b"0x7fffffffffffffff", "9223372036854775807:0-18 "),
            (b"0x007fffffffffffffff", "9223372036854775807:0-20 "),
            (b" 9223372036854775808", "no token at 1"),
            (b" 0x8000000000000000", "no token at 1"),
            (b"18446744073709551616", "no token at 0"),
            (b"99999999999999999999999", "no token at 0"),
            (b"x 0x", "no token at 2"),
            (b"00", "no token at 0"),
            (b"007", "no token at 0"),
            (b"08", "no token at 0"),
            (b"1a", "no token at 0"),
            (b"1La", "no token at 0"),
            (b"1LL", "no token at 0"),
            (b"1_", "no token at 0"),
            (b"0xg", "no token at 0"),
            (b"0xL", "no token at 0"),
            (b"0X1", "no token at 0"),
            (b"1.5", "1:0-1 1-2 5:2-3 "),
            (b"-1+2", "0-1 1:1-2 2-3 2:3-4 "),
        ],
    )
}

#[test]
fn quoted(rt: HostRuntime) -> Result<(), Fail> {
    check(
        &rt,
        rt.alloc(),
        &[
            (b"'a' ' ' '~' '\"'", "c97:0-3 c32:4-7 c126:8-11 c34:12-15 "),
            (
                b"'\\n' '\\t' '\\r' '\\0'",
                "c10:0-4 c9:5-9 c13:10-14 c0:15-19 ",
            ),
            (b"'\\\\' '\\'' '\\\"'", "c92:0-4 c39:5-9 c34:10-14 "),
            (b"''", "no token at 0"),
            (b"'''", "no token at 0"),
            (b"'ab'", "no token at 0"),
            (b"'a", "no token at 0"),
            (b"'\\", "no token at 0"),
            (b"'\\'", "no token at 0"),
            (b"'\\a'", "no token at 0"),
            (b"'\n'", "no token at 0"),
            (b"'\x7f'", "no token at 0"),
            (b"'\x80'", "no token at 0"),
            (b"\"\"", "S0-2 "),
            (b"\"a'b\" c", "S0-5 N6-7 "),
            (b"\"\\n\\t\\r\\0\\\\\\'\\\"\"x", "S0-16 N16-17 "),
            (b"\"//\" \"/*\"", "S0-4 S5-9 "),
            (b"\"a", "no token at 0"),
            (b"\"a\\", "no token at 0"),
            (b"\"a\\\"", "no token at 0"),
            (b"\"\\x\"", "no token at 0"),
            (b"\"a\nb\"", "no token at 0"),
            (b"\"\xc3\xa9\"", "no token at 0"),
            (b"\"\t\"", "no token at 0"),
        ],
    )
}

#[test]
fn signs(rt: HostRuntime) -> Result<(), Fail> {
    check(
        &rt,
        rt.alloc(),
        &[
            (
                b"+ - * / % & | ^ ~ ! < >",
                "0-1 2-3 4-5 6-7 8-9 10-11 12-13 14-15 16-17 18-19 20-21 22-23 ",
            ),
            (
                b"= ? : ; , . ( ) [ ] { }",
                "0-1 2-3 4-5 6-7 8-9 10-11 12-13 14-15 16-17 18-19 20-21 22-23 ",
            ),
            (
                b"<< >> <= >= == != && || ->",
                "0-2 3-5 6-8 9-11 12-14 15-17 18-20 21-23 24-26 ",
            ),
            (
                b"++ -- += -= *= /= %= &= |= ^=",
                "0-2 3-5 6-8 9-11 12-14 15-17 18-20 21-23 24-26 27-29 ",
            ),
            (b"<<= >>=", "0-3 4-7 "),
            (b"<<<= >>>=", "0-2 2-4 5-7 7-9 "),
            (b"===!==", "0-2 2-3 3-5 5-6 "),
            (b"--->->", "0-2 2-4 4-6 "),
            (b"&&&|||^^~~", "0-2 2-3 3-5 5-6 6-7 7-8 8-9 9-10 "),
            (b"<>-<=>", "0-1 1-2 2-3 3-5 5-6 "),
            (b"(){}[];;", "0-1 1-2 2-3 3-4 4-5 5-6 6-7 7-8 "),
            (b"p->m=*q", "N0-1 1-3 N3-4 4-5 5-6 N6-7 "),
        ],
    )
}
