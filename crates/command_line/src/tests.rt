//! Lines of words by hand, with what each says by clap's documented rules.

use super::*;
use std::alloc::{AllocError, Global};
use std::test::Fail;

const NO_FILES: RunFiles<'static> = RunFiles {
    schedule: None,
    public_input: None,
    private_input: None,
    private_output: None,
    audit: None,
};

/// Each line's words and the command that they say; None is a usage fault.
static LINES: [(&[&str], Option<Command<'static>>); 71] = [
    (&[], None),
    (&[""], None),
    (&["frob", "img"], None),
    (&["Verify", "img"], None),
    (&["help"], None),
    (&["-h"], None),
    (&["--help"], None),
    (&["--"], None),
    (&["--", "verify", "img"], None),
    (&["verify"], None),
    (&["verify", "img"], Some(Command::Verify { name: "img" })),
    (&["verify", "img", "img"], None),
    (&["verify", ""], Some(Command::Verify { name: "" })),
    (&["verify", "a b"], Some(Command::Verify { name: "a b" })),
    (&["verify", "help"], Some(Command::Verify { name: "help" })),
    (&["verify", "-"], Some(Command::Verify { name: "-" })),
    (&["verify", "--"], None),
    (
        &["verify", "--", "-img"],
        Some(Command::Verify { name: "-img" }),
    ),
    (
        &["verify", "--", "--help"],
        Some(Command::Verify { name: "--help" }),
    ),
    (
        &["verify", "--", "--"],
        Some(Command::Verify { name: "--" }),
    ),
    (&["verify", "--", "img", "img"], None),
    (
        &["verify", "img", "--"],
        Some(Command::Verify { name: "img" }),
    ),
    (&["verify", "-x"], None),
    (&["verify", "--xyz"], None),
    (&["verify", "img", "-x"], None),
    (&["verify", "-x", "-x", "img"], None),
    (&["verify", "--name=img"], None),
    (&["verify", "-h"], None),
    (&["verify", "--help"], None),
    (&["verify", "img", "--help"], None),
    (&["verify", "--help", "--help"], None),
    (&["verify", "--version"], None),
    (&["run"], None),
    (&["run", "img"], None),
    (
        &["run", "img", "5"],
        Some(Command::Run {
            name: "img",
            steps: 5,
            files: NO_FILES,
        }),
    ),
    (&["run", "img", "5", "6"], None),
    (&["run", "5", "img"], None),
    (&["run", "--", "img"], None),
    (&["run", "img", ""], None),
    (&["run", "img", "-1"], None),
    (&["run", "img", "+1"], None),
    (&["run", "img", "1x"], None),
    (&["run", "img", " 1"], None),
    (&["run", "img", "\u{661}"], None),
    (
        &["run", "img", "007"],
        Some(Command::Run {
            name: "img",
            steps: 7,
            files: NO_FILES,
        }),
    ),
    (
        &["run", "img", "0"],
        Some(Command::Run {
            name: "img",
            steps: 0,
            files: NO_FILES,
        }),
    ),
    (
        &["run", "img", "1000000000"],
        Some(Command::Run {
            name: "img",
            steps: 1_000_000_000,
            files: NO_FILES,
        }),
    ),
    (&["run", "img", "1000000001"], None),
    (&["run", "img", "99999999999999999999"], None),
    (
        &["run", "img", "00000000000000000007"],
        Some(Command::Run {
            name: "img",
            steps: 7,
            files: NO_FILES,
        }),
    ),
    (
        &["run", "--", "-img", "5"],
        Some(Command::Run {
            name: "-img",
            steps: 5,
            files: NO_FILES,
        }),
    ),
    (
        &["run", "img", "--", "5"],
        Some(Command::Run {
            name: "img",
            steps: 5,
            files: NO_FILES,
        }),
    ),
    (
        &["run", "img", "5", "--"],
        Some(Command::Run {
            name: "img",
            steps: 5,
            files: NO_FILES,
        }),
    ),
    (&["run", "img", "--", "-1"], None),
    (&["run", "-img", "5"], None),
    (&["disasm"], None),
    (&["disasm", "img"], Some(Command::Disasm { name: "img" })),
    (
        &["disasm", "--", "-img"],
        Some(Command::Disasm { name: "-img" }),
    ),
    (&["disasm", "img", "5"], None),
    (&["disasm", "--help"], None),
    // An option of `run` is none of the others, nor is any behind `--`.
    (&["verify", "--public", "F", "img"], None),
    (&["verify", "img", "--schedule=F"], None),
    (&["disasm", "img", "--audit", "F"], None),
    (
        &["verify", "--", "--public"],
        Some(Command::Verify { name: "--public" }),
    ),
    (
        &["run", "--", "--public", "5"],
        Some(Command::Run {
            name: "--public",
            steps: 5,
            files: NO_FILES,
        }),
    ),
    (
        &["run", "--public", "F", "--", "-img", "5"],
        Some(Command::Run {
            name: "-img",
            steps: 5,
            files: RunFiles {
                public_input: Some("F"),
                ..NO_FILES
            },
        }),
    ),
    (
        &["run", "--", "--public=F", "5"],
        Some(Command::Run {
            name: "--public=F",
            steps: 5,
            files: NO_FILES,
        }),
    ),
    // What follows an option is its value, and no name and no number.
    (&["run", "--public", "img", "5"], None),
    (&["run", "img", "--audit", "5"], None),
    (&["run", "--public=F"], None),
    (
        &["run", "--public", "5", "img", "--private", "img", "6"],
        Some(Command::Run {
            name: "img",
            steps: 6,
            files: RunFiles {
                public_input: Some("5"),
                private_input: Some("img"),
                ..NO_FILES
            },
        }),
    ),
];

/// The files of [`RunFiles`], in its order.
type Files<'a> = (
    Option<&'a str>,
    Option<&'a str>,
    Option<&'a str>,
    Option<&'a str>,
    Option<&'a str>,
);

/// Lines of `run` for the image `img` and 5 steps, their words with a `|` between two, and the files that they name; None
/// is a usage fault.
static RUN_LINES: [(&str, Option<Files<'static>>); 69] = [
    // None and each alone.
    ("run|img|5", Some((None, None, None, None, None))),
    (
        "run|--schedule|F|img|5",
        Some((Some("F"), None, None, None, None)),
    ),
    (
        "run|img|--public|F|5",
        Some((None, Some("F"), None, None, None)),
    ),
    (
        "run|img|5|--private|F",
        Some((None, None, Some("F"), None, None)),
    ),
    (
        "run|--private-out|F|img|5",
        Some((None, None, None, Some("F"), None)),
    ),
    (
        "run|img|5|--audit|F",
        Some((None, None, None, None, Some("F"))),
    ),
    (
        "run|img|5|--schedule=F",
        Some((Some("F"), None, None, None, None)),
    ),
    (
        "run|img|5|--public=F",
        Some((None, Some("F"), None, None, None)),
    ),
    (
        "run|img|5|--private=F",
        Some((None, None, Some("F"), None, None)),
    ),
    (
        "run|img|5|--private-out=F",
        Some((None, None, None, Some("F"), None)),
    ),
    (
        "run|img|5|--audit=F",
        Some((None, None, None, None, Some("F"))),
    ),
    // All five, in several orders.
    (
        "run|img|5|--schedule|a|--public|b|--private|c|--private-out|d|--audit|e",
        Some((Some("a"), Some("b"), Some("c"), Some("d"), Some("e"))),
    ),
    (
        "run|--audit|e|img|--private-out|d|--private|c|--public|b|5|--schedule|a",
        Some((Some("a"), Some("b"), Some("c"), Some("d"), Some("e"))),
    ),
    (
        "run|--private=c|--schedule=a|img|--audit=e|--public|b|--private-out=d|5",
        Some((Some("a"), Some("b"), Some("c"), Some("d"), Some("e"))),
    ),
    (
        "run|--public|b|--private|c|--schedule|a|--audit|e|--private-out|d|--|img|5",
        Some((Some("a"), Some("b"), Some("c"), Some("d"), Some("e"))),
    ),
    (
        "run|--public|F|--private|F|img|5",
        Some((None, Some("F"), Some("F"), None, None)),
    ),
    // Without a value.
    ("run|img|5|--schedule", None),
    ("run|img|5|--public", None),
    ("run|img|5|--private|--audit|F", None),
    ("run|--private-out|--public=F|img|5", None),
    ("run|--audit|--|img|5", None),
    ("run|img|5|--audit|--", None),
    ("run|img|5|--audit|--|F", None),
    // Twice.
    ("run|--schedule|F|--schedule|F|img|5", None),
    ("run|--public|F|img|5|--public|G", None),
    ("run|img|--private=F|5|--private=F", None),
    ("run|img|5|--private-out|F|--audit|G|--private-out=H", None),
    ("run|--audit=|--audit|F|img|5", None),
    // Other options, which there are not: no part of a name, no other case and no short one.
    ("run|img|5|--public-out|F", None),
    ("run|img|5|--private_out|F", None),
    ("run|img|5|--public_input|F", None),
    ("run|img|5|--Public|F", None),
    ("run|img|5|--pub|F", None),
    ("run|img|5|--schedules=F", None),
    ("run|img|5|-p|F", None),
    ("run|img|5|-public|F", None),
    ("run|img|5|---public|F", None),
    ("run|img|5|--=F", None),
    ("run|img|5|--help", None),
    ("run|--public|F|img|5|-h", None),
    ("run|img|5|--public|--help", None),
    // Behind `--` each word is a value of NAME or STEPS.
    ("run|img|5|--|--public|F", None),
    ("run|img|--|5|--public=F", None),
    ("run|--|img|5|--audit|F", None),
    // A word with `-` at its front is no value of the option before it, unless it is `-` alone; behind `=` it may be.
    ("run|--public|-F|img|5", None),
    ("run|--public|-1|img|5", None),
    ("run|--public|--F|img|5", None),
    ("run|--public|--private|img|5", None),
    (
        "run|--public|-|img|5",
        Some((None, Some("-"), None, None, None)),
    ),
    (
        "run|img|5|--public=-",
        Some((None, Some("-"), None, None, None)),
    ),
    (
        "run|img|5|--public=-F",
        Some((None, Some("-F"), None, None, None)),
    ),
    (
        "run|img|5|--public=-1",
        Some((None, Some("-1"), None, None, None)),
    ),
    (
        "run|img|5|--public=--",
        Some((None, Some("--"), None, None, None)),
    ),
    (
        "run|img|5|--public=--private",
        Some((None, Some("--private"), None, None, None)),
    ),
    (
        "run|img|5|--public=--help",
        Some((None, Some("--help"), None, None, None)),
    ),
    // The empty text is a value, and so is each other text.
    (
        "run|--schedule||img|5",
        Some((Some(""), None, None, None, None)),
    ),
    (
        "run|--schedule=|img|5",
        Some((Some(""), None, None, None, None)),
    ),
    (
        "run|img|5|--private-out==",
        Some((None, None, None, Some("="), None)),
    ),
    (
        "run|--private-out|=|img|5",
        Some((None, None, None, Some("="), None)),
    ),
    (
        "run|img|5|--private-out=a=b",
        Some((None, None, None, Some("a=b"), None)),
    ),
    (
        "run|--private-out|a=b|img|5",
        Some((None, None, None, Some("a=b"), None)),
    ),
    (
        "run|img|5|--private-out=a b",
        Some((None, None, None, Some("a b"), None)),
    ),
    (
        "run|--private-out|a b|img|5",
        Some((None, None, None, Some("a b"), None)),
    ),
    (
        "run|img|5|--private-out=run",
        Some((None, None, None, Some("run"), None)),
    ),
    (
        "run|--private-out|run|img|5",
        Some((None, None, None, Some("run"), None)),
    ),
    (
        "run|img|5|--private-out=audit",
        Some((None, None, None, Some("audit"), None)),
    ),
    (
        "run|--private-out|audit|img|5",
        Some((None, None, None, Some("audit"), None)),
    ),
    (
        "run|img|5|--private-out=\u{e9}",
        Some((None, None, None, Some("\u{e9}"), None)),
    ),
    (
        "run|--private-out|\u{e9}|img|5",
        Some((None, None, None, Some("\u{e9}"), None)),
    ),
];

fn words(alloc: Global, texts: &[&str]) -> Result<Vec<String>, AllocError> {
    let mut words = Vec::new(alloc);
    for text in texts {
        words.push(String::from_str(alloc, text)?)?;
    }
    Ok(words)
}

/// The command that the words say; None is a usage fault.
fn read<'a>(alloc: Global, words: &'a [String]) -> Result<Option<Command<'a>>, Fail> {
    match read_command(alloc, words) {
        Ok(command) => Ok(Some(command)),
        Err(WordsFault::Usage) => Ok(None),
        Err(fault) => Err(fault.into()),
    }
}

#[test]
fn each_line_says_its_command(rt: HostRuntime) -> Result<(), Fail> {
    let alloc = rt.alloc();
    for (texts, said) in &LINES {
        let words = words(alloc, texts)?;
        assert_eq!(rt; read(alloc, &words)?, *said, "{texts:?}");
    }
    Ok(())
}

/// `run` of the image `img` over 5 steps.
fn run_over<'a>(
    (schedule, public_input, private_input, private_output, audit): Files<'a>,
) -> Command<'a> {
    Command::Run {
        name: "img",
        steps: 5,
        files: RunFiles {
            schedule,
            public_input,
            private_input,
            private_output,
            audit,
        },
    }
}

#[test]
fn each_line_of_run_names_its_files(rt: HostRuntime) -> Result<(), Fail> {
    let alloc = rt.alloc();
    for (line, said) in &RUN_LINES {
        let mut words = Vec::new(alloc);
        for text in line.split('|') {
            words.push(String::from_str(alloc, text)?)?;
        }
        assert_eq!(rt; read(alloc, &words)?, said.map(run_over), "{line}");
    }
    Ok(())
}
