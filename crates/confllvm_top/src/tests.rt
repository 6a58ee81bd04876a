//! The lines and statuses of the commands by hand, over stores and sinks in memory that succeed or fail.

mod gates;
mod releases;
mod rows;

use self::gates::{EIGHT_CORES, FILLS_OUTPUT, FILLS_PRIVATE_OUTPUT, GATES, ONE_STEP, TWO_CORES};
use self::releases::{
    FILLS_AUDIT, LONGEST, PASSES_AUDIT, RELEASES_INPUT, RELEASES_NONE, RELEASES_ONE,
    RELEASES_TO_THREE, RELEASES_TWICE, RELEASES_TWO, TOO_LONG,
};
use self::rows::{CODES, LISTINGS, PREFIX, RUNS};
use super::*;
use cv_io::{MemSink, MemStore, Store, Trusted, XorPad};
use cv_word::NoMemory;
use std::alloc::Global;
use std::process::Abort;
use std::test::Fail;

/// An image whose code is a call word and an undefined instruction.
const SMALL: [u8; 54] = [
    0x43, 0x46, 0x56, 0x49, 0x01, 0x01, 0x00, 0x00, 0xa1, 0xa2, 0xa3, 0xa4, 0xa5, 0xa6, 0x00, 0x00,
    0x00, 0x00, 0x01, 0x00, 0x00, 0x10, 0x00, 0x00, 0x0a, 0x00, 0x00, 0x00, 0x00, 0x00, 0x00, 0x00,
    0x00, 0x00, 0x00, 0x00, 0x00, 0x00, 0x00, 0x00, 0x08, 0x00, 0x00, 0x00, 0x0f, 0x11, 0xa1, 0xa2,
    0xa3, 0xa4, 0xa5, 0xa6, 0x0f, 0x0b,
];

/// An image with one entry at 8 and a code of at most 255 bytes.
fn image(alloc: Global, prefix: &[u8], code: &[u8]) -> Result<Vec<u8>, NoMemory> {
    let mut bytes = Vec::new(alloc);
    bytes.extend_from_slice(&SMALL[..8])?;
    bytes.extend_from_slice(prefix)?;
    bytes.extend_from_slice(&SMALL[14..24])?;
    bytes.push((code.len() % 256) as u8)?;
    bytes.extend_from_slice(&SMALL[25..44])?;
    bytes.extend_from_slice(code)?;
    Ok(bytes)
}

fn words(alloc: Global, texts: &[&str]) -> Result<Vec<String>, NoMemory> {
    let mut words = Vec::new(alloc);
    for text in texts {
        words.push(String::from_str(alloc, text)?)?;
    }
    Ok(words)
}

/// Does a command where no class has a releaser.
fn alone(
    alloc: Global,
    line: &[String],
    store: &mut MemStore,
    out: &mut MemSink,
    err: &mut MemSink,
) -> Status {
    let mut none: Vec<Option<Box<dyn Trusted>>> = Vec::new(alloc);
    confllvm(alloc, line, store, out, err, &mut none)
}

/// Asserts what a command answers over a file `img`: the exit status, and what `out` and `err` hold.
fn assert_told(
    rt: &impl Abort,
    alloc: Global,
    bytes: &[u8],
    texts: &[&str],
    wanted: (u8, &[u8], &[u8]),
) -> Result<(), Fail> {
    let mut store = MemStore::new(alloc);
    store.add("img", bytes)?;
    let (mut out, mut err) = (MemSink::new(alloc), MemSink::new(alloc));
    let status = alone(alloc, &words(alloc, texts)?, &mut store, &mut out, &mut err);
    assert_eq!(rt; status.code(), wanted.0);
    assert_eq!(rt; out.bytes(), wanted.1);
    assert_eq!(rt; err.bytes(), wanted.2);
    assert_eq!(rt; store.faults(), 0);
    Ok(())
}

#[test]
fn tells_the_verdict_of_a_code(rt: HostRuntime) -> Result<(), Fail> {
    for (prefix, code, status, line) in &CODES {
        let bytes = image(rt.alloc(), prefix, code)?;
        assert_told(
            &rt,
            rt.alloc(),
            bytes.as_slice(),
            &["verify", "img"],
            (*status, line, b""),
        )?;
    }
    Ok(())
}

#[test]
fn tells_the_outcome_of_a_run(rt: HostRuntime) -> Result<(), Fail> {
    for (code, steps, status, line) in &RUNS {
        let bytes = image(rt.alloc(), PREFIX, code)?;
        assert_told(
            &rt,
            rt.alloc(),
            bytes.as_slice(),
            &["run", "img", steps],
            (*status, b"", line),
        )?;
    }
    Ok(())
}

/// Codes that break a later rule have their listing too.
#[test]
fn tells_the_listing_of_a_code(rt: HostRuntime) -> Result<(), Fail> {
    for (code, status, text) in &LISTINGS {
        let bytes = image(rt.alloc(), PREFIX, code)?;
        assert_told(
            &rt,
            rt.alloc(),
            bytes.as_slice(),
            &["disasm", "img"],
            (*status, text, b""),
        )?;
    }
    Ok(())
}

#[test]
fn tells_the_place_of_a_wrong_form(rt: HostRuntime) -> Result<(), Fail> {
    let mut long = Vec::new(rt.alloc());
    long.extend_from_slice(&SMALL)?;
    long.push(0)?;
    let cases: [(&[u8], &[u8]); 3] = [
        (b"", b"refused V1 at place 0\n"),
        (&SMALL[..53], b"refused V1 at place 24\n"),
        (long.as_slice(), b"refused V1 at place 54\n"),
    ];
    for (bytes, line) in cases {
        assert_told(&rt, rt.alloc(), bytes, &["verify", "img"], (1, line, b""))?;
        assert_told(&rt, rt.alloc(), bytes, &["disasm", "img"], (1, line, b""))?;
        assert_told(&rt, rt.alloc(), bytes, &["run", "img", "9"], (1, b"", line))?;
    }
    Ok(())
}

/// The entry's four bytes stand at 40.
#[test]
fn tells_an_entry_at_the_call_word(rt: HostRuntime) -> Result<(), Fail> {
    let mut bytes = SMALL;
    bytes[40] = 0;
    assert_told(
        &rt,
        rt.alloc(),
        &bytes,
        &["verify", "img"],
        (1, b"refused V9 at 0x10000\n", b""),
    )
}

/// Words over a store that has the file `img` alone. Words are read before a file is loaded.
#[test]
fn tells_usage_and_a_missing_file(rt: HostRuntime) -> Result<(), Fail> {
    let cases: [(&[&str], u8, &[u8]); 10] = [
        (&[], 2, b"usage fault\n"),
        (&["frobnicate"], 2, b"usage fault\n"),
        (&["verify"], 2, b"usage fault\n"),
        (&["verify", "gone"], 3, b"store fault gone\n"),
        (&["verify", "--", "-gone"], 3, b"store fault -gone\n"),
        (&["run", "gone", "1x"], 2, b"usage fault\n"),
        (&["run", "img", "1000000001"], 2, b"usage fault\n"),
        (&["run", "gone", "5"], 3, b"store fault gone\n"),
        (&["disasm", "img", "img"], 2, b"usage fault\n"),
        (&["disasm", "gone"], 3, b"store fault gone\n"),
    ];
    for (texts, status, line) in cases {
        assert_told(&rt, rt.alloc(), &SMALL, texts, (status, b"", line))?;
    }
    Ok(())
}

#[test]
fn tells_a_failing_store_and_sink(rt: HostRuntime) -> Result<(), Fail> {
    let alloc = rt.alloc();
    let line = words(alloc, &["verify", "img"])?;
    let mut store = MemStore::new(alloc);
    store.add("img", &SMALL)?;
    let (mut out, mut err) = (MemSink::new(alloc), MemSink::new(alloc));
    out.fail_at(1, 3)?;
    let status = alone(alloc, &line, &mut store, &mut out, &mut err);
    assert_eq!(rt; status.code(), 4);
    assert_eq!(rt; out.bytes(), b"acc".as_slice());
    assert_eq!(rt; err.bytes(), b"".as_slice());

    let listing = words(alloc, &["disasm", "img"])?;
    // the first line of two, and then the second
    let cases: [(u64, &[u8]); 2] = [
        (1, b"00010"),
        (2, b"00010000: 0f11a1a2a3a4a5a6 callword 0f\n00010"),
    ];
    for (put, told) in cases {
        let mut third = MemSink::new(alloc);
        third.fail_at(put, 5)?;
        let status = alone(alloc, &listing, &mut store, &mut third, &mut err);
        assert_eq!(rt; status, Status::SinkFault);
        assert_eq!(rt; third.bytes(), told);
        assert_eq!(rt; err.bytes(), b"".as_slice());
    }

    let mut failing = MemStore::new(alloc);
    failing.add("img", &SMALL)?;
    failing.fail_at(1)?;
    let mut second = MemSink::new(alloc);
    let status = alone(alloc, &line, &mut failing, &mut second, &mut err);
    assert_eq!(rt; status, Status::StoreFault);
    assert_eq!(rt; failing.faults(), 1);
    assert_eq!(rt; second.bytes(), b"".as_slice());

    let mut deaf = MemSink::new(alloc);
    deaf.fail_at(1, 2)?;
    let wrong = words(alloc, &["frobnicate"])?;
    let status = alone(alloc, &wrong, &mut store, &mut second, &mut deaf);
    assert_eq!(rt; status, Status::Usage);
    assert_eq!(rt; deaf.bytes(), b"us".as_slice());
    Ok(())
}

/// The put of the empty output fails, then that of the line, then that of the line of a refusal.
#[test]
fn tells_a_failing_sink_of_a_run(rt: HostRuntime) -> Result<(), Fail> {
    let alloc = rt.alloc();
    let line = words(alloc, &["run", "img", "5"])?;
    let mut store = MemStore::new(alloc);
    store.add("img", &SMALL)?;
    let (mut out, mut err) = (MemSink::new(alloc), MemSink::new(alloc));
    out.fail_at(1, 3)?;
    err.fail_at(1, 3)?;
    err.fail_at(2, 4)?;
    let status = alone(alloc, &line, &mut store, &mut out, &mut err);
    assert_eq!(rt; status, Status::SinkFault);
    assert_eq!(rt; err.bytes(), b"".as_slice());
    let status = alone(alloc, &line, &mut store, &mut out, &mut err);
    assert_eq!(rt; status, Status::SinkFault);
    assert_eq!(rt; err.bytes(), b"fau".as_slice());
    store.add("img", b"")?;
    let status = alone(alloc, &line, &mut store, &mut out, &mut err);
    assert_eq!(rt; status, Status::SinkFault);
    assert_eq!(rt; err.bytes(), b"faurefu".as_slice());
    assert_eq!(rt; out.bytes(), b"".as_slice());
    assert_eq!(rt; out.faults(), 1);
    Ok(())
}

/// The words of a run over the files `img`, `p` and `q` that saves `r` and `a`.
const NAMED: [&str; 11] = [
    "run",
    "img",
    "100000",
    "--public",
    "p",
    "--private",
    "q",
    "--private-out",
    "r",
    "--audit",
    "a",
];

/// Each gate, and each fault of one.
#[test]
fn tells_what_gates_do(rt: HostRuntime) -> Result<(), Fail> {
    let alloc = rt.alloc();
    let line = words(alloc, &NAMED)?;
    for (code, public, private, status, told, saved, text) in &GATES {
        let mut store = MemStore::new(alloc);
        store.add("img", image(alloc, PREFIX, code)?.as_slice())?;
        store.add("p", public)?;
        store.add("q", private)?;
        let (mut out, mut err) = (MemSink::new(alloc), MemSink::new(alloc));
        let ended = alone(alloc, &line, &mut store, &mut out, &mut err);
        assert_eq!(rt; ended.code(), *status);
        assert_eq!(rt; out.bytes(), *told);
        assert_eq!(rt; err.bytes(), *text);
        assert_eq!(rt; store.load(alloc, "r")?.as_slice(), *saved);
        assert_eq!(rt; store.load(alloc, "a")?.as_slice(), b"".as_slice());
    }
    Ok(())
}

/// An output is filled to its limit of 1,048,576 bytes exactly, or up to the last piece that fits.
#[test]
fn tells_an_output_at_its_limit(rt: HostRuntime) -> Result<(), Fail> {
    let alloc = rt.alloc();
    let line = words(alloc, &NAMED)?;
    let cases: [(&[u8], usize, usize, &[u8]); 2] = [
        (
            &FILLS_OUTPUT,
            1_048_576,
            0,
            b"fault core 0 at 0x1030 OutLimit\n",
        ),
        (
            &FILLS_PRIVATE_OUTPUT,
            0,
            1_044_480,
            b"fault core 0 at 0x1050 OutLimit\n",
        ),
    ];
    for (code, told, saved, text) in cases {
        let mut store = MemStore::new(alloc);
        store.add("img", image(alloc, PREFIX, code)?.as_slice())?;
        store.add("p", b"")?;
        store.add("q", b"")?;
        let (mut out, mut err) = (MemSink::new(alloc), MemSink::new(alloc));
        let ended = alone(alloc, &line, &mut store, &mut out, &mut err);
        assert_eq!(rt; ended.code(), 5);
        assert_eq!(rt; out.bytes().len(), told);
        assert_eq!(rt; err.bytes(), text);
        assert_eq!(rt; store.load(alloc, "r")?.len(), saved);
    }
    Ok(())
}

/// An image of several entries, each at a place of the code of at most 255 bytes.
fn cores(alloc: Global, entries: &[u8], code: &[u8]) -> Result<Vec<u8>, NoMemory> {
    let mut bytes = Vec::new(alloc);
    bytes.extend_from_slice(&SMALL[..5])?;
    bytes.push((entries.len() % 256) as u8)?;
    bytes.extend_from_slice(&SMALL[6..24])?;
    bytes.push((code.len() % 256) as u8)?;
    bytes.extend_from_slice(&SMALL[25..40])?;
    for entry in entries {
        bytes.push(*entry)?;
        bytes.extend_from_slice(&[0, 0, 0])?;
    }
    bytes.extend_from_slice(code)?;
    Ok(bytes)
}

/// The same image over two schedules, and over ones that name cores that aren't there.
#[test]
fn tells_what_two_cores_do(rt: HostRuntime) -> Result<(), Fail> {
    let alloc = rt.alloc();
    let bytes = cores(alloc, &[8, 71], &TWO_CORES)?;
    let line = words(alloc, &["run", "img", "11", "--schedule", "s"])?;
    let cases: [(&[u8], u8, &[u8], &[u8]); 6] = [
        (b"\0\0\0\x01\x01\x01\0\0\0\0\0", 0, b"\x02", b"exit 0\n"),
        (b"\x01\x01\x01\0\0\0\0\0\0\0\0", 0, b"\x01", b"exit 0\n"),
        (b"\xff\x02\0\0\0\0\0\0\0\0\0", 0, b"\x01", b"exit 0\n"),
        (
            b"\x01\x01\x01\x01\x01\x01\x01\x01\x01\x01\x01\0\0",
            6,
            b"",
            b"steps 11\n",
        ),
        (b"\0\0\0\0\0", 6, b"\x01", b"steps 5\n"),
        (b"", 6, b"", b"steps 0\n"),
    ];
    for (schedule, status, told, text) in cases {
        let mut store = MemStore::new(alloc);
        store.add("img", bytes.as_slice())?;
        store.add("s", schedule)?;
        let (mut out, mut err) = (MemSink::new(alloc), MemSink::new(alloc));
        let ended = alone(alloc, &line, &mut store, &mut out, &mut err);
        assert_eq!(rt; ended.code(), status);
        assert_eq!(rt; out.bytes(), told);
        assert_eq!(rt; err.bytes(), text);
    }
    Ok(())
}

/// Runs the image of some cores over a schedule file, or over a round robin where that is empty, and asserts what it tells.
fn assert_run(
    rt: &impl Abort,
    alloc: Global,
    bytes: &[u8],
    schedule: &[u8],
    steps: &str,
    wanted: (u8, &[u8], &[u8]),
) -> Result<(), Fail> {
    let line = if schedule.is_empty() {
        words(alloc, &["run", "img", steps])?
    } else {
        words(alloc, &["run", "img", steps, "--schedule", "s"])?
    };
    let mut store = MemStore::new(alloc);
    store.add("img", bytes)?;
    store.add("s", schedule)?;
    let (mut out, mut err) = (MemSink::new(alloc), MemSink::new(alloc));
    let ended = alone(alloc, &line, &mut store, &mut out, &mut err);
    assert_eq!(rt; ended.code(), wanted.0);
    assert_eq!(rt; out.bytes(), wanted.1);
    assert_eq!(rt; err.bytes(), wanted.2);
    Ok(())
}

/// Eight cores that write one public word by turns, whoever is named first, and each 15 steps long.
#[test]
fn tells_what_eight_cores_do(rt: HostRuntime) -> Result<(), Fail> {
    let alloc = rt.alloc();
    let bytes = cores(alloc, &[8; 8], &EIGHT_CORES)?;
    let told: &[u8] = b"\x10\x20\x30\x40\x50\x60\x70\x80";
    let mut upwards = Vec::new(alloc);
    let mut downwards = Vec::new(alloc);
    for turn in 0..120u64 {
        upwards.push((turn / 15) as u8)?;
        downwards.push(7 - (turn / 15) as u8)?;
    }
    let (up, down) = (upwards.as_slice(), downwards.as_slice());
    let image = bytes.as_slice();
    assert_run(&rt, alloc, image, b"", "2000", (0, told, b"exit 0\n"))?;
    assert_run(&rt, alloc, image, up, "120", (0, told, b"exit 0\n"))?;
    assert_run(&rt, alloc, image, up, "119", (6, told, b"steps 119\n"))?;
    assert_run(&rt, alloc, image, down, "120", (6, b"\x10", b"steps 120\n"))
}

/// A schedule of all values of a byte: those that name no core change nothing, and each core takes one step.
#[test]
fn tells_a_schedule_of_all_bytes(rt: HostRuntime) -> Result<(), Fail> {
    let alloc = rt.alloc();
    let cases: [(&[u8], u8, &[u8]); 3] = [
        (&[8], 0, b"fault core 0 at 0x10009 Undefined\n"),
        (&[8; 2], 1, b"fault core 1 at 0x10009 Undefined\n"),
        (&[8; 8], 7, b"fault core 7 at 0x10009 Undefined\n"),
    ];
    for (entries, last, line) in cases {
        let bytes = cores(alloc, entries, &ONE_STEP)?;
        let mut all = Vec::new(alloc);
        for core in 0..256u64 {
            all.push(core as u8)?;
        }
        all.push(last)?;
        assert_run(
            &rt,
            alloc,
            bytes.as_slice(),
            all.as_slice(),
            "256",
            (6, b"", b"steps 256\n"),
        )?;
        assert_run(
            &rt,
            alloc,
            bytes.as_slice(),
            all.as_slice(),
            "257",
            (5, b"", line),
        )?;
    }
    assert_run(
        &rt,
        alloc,
        &SMALL,
        b"\xff\xff\0",
        "2",
        (6, b"", b"steps 2\n"),
    )?;
    assert_run(
        &rt,
        alloc,
        &SMALL,
        b"\xff\xff\0",
        "3",
        (5, b"", b"fault core 0 at 0x10008 Undefined\n"),
    )
}

/// One call fails of a run that loads four files, puts, saves two and puts its line: what is told and saved then.
#[test]
fn tells_what_was_saved_before_a_fault(rt: HostRuntime) -> Result<(), Fail> {
    let alloc = rt.alloc();
    let bytes = cores(alloc, &[8, 71], &TWO_CORES)?;
    let line = words(
        alloc,
        &[
            "run",
            "img",
            "11",
            "--schedule",
            "s",
            "--public",
            "p",
            "--private",
            "q",
            "--private-out",
            "r",
            "--audit",
            "a",
        ],
    )?;
    // the store's call, the put to `out` and the put to `err` that fail, or 0; then the status, both sinks, and what is saved
    let cases: [(u64, u64, u64, u8, &[u8], &[u8], bool, bool); 9] = [
        (0, 0, 0, 0, b"\x02", b"exit 0\n", true, true),
        (1, 0, 0, 3, b"", b"store fault img\n", false, false),
        (2, 0, 0, 3, b"", b"store fault s\n", false, false),
        (3, 0, 0, 3, b"", b"store fault p\n", false, false),
        (4, 0, 0, 3, b"", b"store fault q\n", false, false),
        (0, 1, 0, 4, b"", b"", false, false),
        (5, 0, 0, 3, b"\x02", b"store fault r\n", false, false),
        (6, 0, 0, 3, b"\x02", b"store fault a\n", true, false),
        (0, 0, 1, 4, b"\x02", b"exit", true, true),
    ];
    for (call, put, line_put, status, told, text, private, audit) in cases {
        let mut store = MemStore::new(alloc);
        store.add("img", bytes.as_slice())?;
        store.add("s", b"\0\0\0\x01\x01\x01\0\0\0\0\0")?;
        store.add("p", b"")?;
        store.add("q", b"")?;
        store.fail_at(call)?;
        let (mut out, mut err) = (MemSink::new(alloc), MemSink::new(alloc));
        out.fail_at(put, 0)?;
        err.fail_at(line_put, 4)?;
        let ended = alone(alloc, &line, &mut store, &mut out, &mut err);
        assert_eq!(rt; ended.code(), status);
        assert_eq!(rt; out.bytes(), told);
        assert_eq!(rt; err.bytes(), text);
        assert_eq!(rt; store.load(alloc, "r").is_ok(), private);
        assert_eq!(rt; store.load(alloc, "a").is_ok(), audit);
    }
    Ok(())
}

/// The inputs are loaded behind the check, in this order; the first that isn't there is told.
#[test]
fn tells_a_missing_input(rt: HostRuntime) -> Result<(), Fail> {
    let alloc = rt.alloc();
    let line = words(
        alloc,
        &[
            "run",
            "img",
            "2",
            "--private",
            "q",
            "--public",
            "p",
            "--schedule",
            "s",
        ],
    )?;
    let mut store = MemStore::new(alloc);
    let (mut out, mut err) = (MemSink::new(alloc), MemSink::new(alloc));
    store.add("img", &SMALL[..53])?;
    assert_eq!(rt;
        alone(alloc, &line, &mut store, &mut out, &mut err).code(),
        1
    );
    store.add("img", &SMALL)?;
    assert_eq!(rt;
        alone(alloc, &line, &mut store, &mut out, &mut err).code(),
        3
    );
    store.add("s", b"\xff\xff\0")?;
    assert_eq!(rt;
        alone(alloc, &line, &mut store, &mut out, &mut err).code(),
        3
    );
    store.add("p", b"")?;
    assert_eq!(rt;
        alone(alloc, &line, &mut store, &mut out, &mut err).code(),
        3
    );
    store.add("q", b"")?;
    assert_eq!(rt;
        alone(alloc, &line, &mut store, &mut out, &mut err).code(),
        6
    );
    assert_eq!(rt;
        err.bytes(),
        b"refused V1 at place 24\nstore fault s\nstore fault p\nstore fault q\nsteps 2\n".as_slice()
    );
    assert_eq!(rt; store.faults(), 0);
    Ok(())
}

/// The words of a run that saves its audit, over the private input `q`.
const AUDITED: [&str; 7] = ["run", "img", "200", "--private", "q", "--audit", "a"];

/// Runs an image with these releasers, and asserts how it ends and what it puts out; the answer is the audit.
fn run_with(
    rt: &impl Abort,
    alloc: Global,
    bytes: &[u8],
    trusted: &mut Vec<Option<Box<dyn Trusted>>>,
    wanted: (u8, &[u8], &[u8]),
) -> Result<Vec<u8>, Fail> {
    let mut store = MemStore::new(alloc);
    store.add("img", bytes)?;
    store.add("q", b"\x01\x02\x03")?;
    let (mut out, mut err) = (MemSink::new(alloc), MemSink::new(alloc));
    let line = words(alloc, &AUDITED)?;
    let ended = confllvm(alloc, &line, &mut store, &mut out, &mut err, trusted);
    assert_eq!(rt; ended.code(), wanted.0);
    assert_eq!(rt; out.bytes(), wanted.1);
    assert_eq!(rt; err.bytes(), wanted.2);
    Ok(store.load(alloc, "a")?)
}

/// What the first releaser has heard and told, its count of faults, and the length of what failed.
fn assert_kept(
    rt: &impl Abort,
    trusted: &Vec<Option<Box<dyn Trusted>>>,
    wanted: (&[u8], &[u8], u64, u64),
) {
    match trusted.first() {
        Some(Some(releaser)) => {
            assert_eq!(rt; releaser.heard(), wanted.0);
            assert_eq!(rt; releaser.told(), wanted.1);
            assert_eq!(rt; releaser.faults(), wanted.2);
            assert_eq!(rt; releaser.failed_len(), wanted.3);
        }
        _ => assert!(rt; false),
    }
}

/// A release of class 0 with a pad and failing calls: how the run ends, its audit, and what the releaser keeps.
fn assert_released(
    rt: &impl Abort,
    alloc: Global,
    code: &[u8],
    pad: (&[u8], &[u64]),
    wanted: (u8, &[u8], &[u8], &[u8]),
    kept: (&[u8], &[u8], u64, u64),
) -> Result<(), Fail> {
    let mut bytes = Vec::new(alloc);
    bytes.extend_from_slice(pad.0)?;
    let mut fails = Vec::new(alloc);
    fails.extend_from_slice(pad.1)?;
    let mut trusted: Vec<Option<Box<dyn Trusted>>> = Vec::new(alloc);
    trusted.push(Some(Box::new(alloc, XorPad::new(alloc, bytes, fails)?)?))?;
    let file = image(alloc, PREFIX, code)?;
    let audit = run_with(
        rt,
        alloc,
        file.as_slice(),
        &mut trusted,
        (wanted.0, wanted.1, wanted.2),
    )?;
    assert_eq!(rt; audit.as_slice(), wanted.3);
    assert_kept(rt, &trusted, kept);
    Ok(())
}

const FIVE_A: &[u8] = &[0x5a; 8];

/// One byte in the audit: class 0, one byte, `5a`.
const ONE_BYTE: &[u8] = b"\0\0\0\0\x01\0\0\0\x5a";

/// Releases that are answered, and ones that fail: at a call, and for a pad that is one byte short. A release of no bytes is a call,
/// and is listed.
#[test]
fn tells_releases(rt: HostRuntime) -> Result<(), Fail> {
    let alloc = rt.alloc();
    let ends: &[u8] = b"fault core 0 at 0x1002d Undefined\n";
    let fails: &[u8] = b"trust fault class 0\n";
    assert_released(
        &rt,
        alloc,
        &RELEASES_ONE,
        (b"\x5a", &[]),
        (5, b"", ends, ONE_BYTE),
        (b"\0", b"\x5a", 0, 0),
    )?;
    assert_released(
        &rt,
        alloc,
        &RELEASES_ONE,
        (b"\x5a", &[1]),
        (8, b"", fails, b""),
        (b"", b"", 1, 1),
    )?;
    assert_released(
        &rt,
        alloc,
        &RELEASES_TWICE,
        (FIVE_A, &[2]),
        (8, b"", fails, ONE_BYTE),
        (b"\0", b"\x5a", 1, 1),
    )?;
    assert_released(
        &rt,
        alloc,
        &RELEASES_TWO,
        (b"\x5a", &[]),
        (8, b"", fails, b""),
        (b"", b"", 1, 2),
    )?;
    assert_released(
        &rt,
        alloc,
        &RELEASES_NONE,
        (FIVE_A, &[2]),
        (8, b"", fails, b"\0\0\0\0\0\0\0\0"),
        (b"", b"", 1, 1),
    )?;
    assert_released(
        &rt,
        alloc,
        &RELEASES_INPUT,
        (b"\x10\x20\x30", &[]),
        (
            0,
            b"\x11\x22\x33",
            b"exit 0\n",
            b"\0\0\0\0\x03\0\0\0\x11\x22\x33",
        ),
        (b"\x01\x02\x03", b"\x11\x22\x33", 0, 0),
    )
}

/// Asserts that a release is refused, where there is no class or one without a releaser.
fn assert_unreleased(
    rt: &impl Abort,
    alloc: Global,
    trusted: &mut Vec<Option<Box<dyn Trusted>>>,
) -> Result<(), Fail> {
    let line: &[u8] = b"fault core 0 at 0x10c0 NoReleaser\n";
    let one = image(alloc, PREFIX, &RELEASES_ONE)?;
    let audit = run_with(rt, alloc, one.as_slice(), trusted, (5, b"", line))?;
    assert!(rt; audit.is_empty());
    Ok(())
}

#[test]
fn tells_that_there_is_no_class(rt: HostRuntime) -> Result<(), Fail> {
    let mut trusted: Vec<Option<Box<dyn Trusted>>> = Vec::new(rt.alloc());
    assert_unreleased(&rt, rt.alloc(), &mut trusted)
}

#[test]
fn tells_that_a_class_has_no_releaser(rt: HostRuntime) -> Result<(), Fail> {
    let mut trusted: Vec<Option<Box<dyn Trusted>>> = Vec::new(rt.alloc());
    trusted.push(None)?;
    assert_unreleased(&rt, rt.alloc(), &mut trusted)
}

/// Class 3 of one class. Nobody is asked.
#[test]
fn tells_a_class_past_the_list(rt: HostRuntime) -> Result<(), Fail> {
    assert_released(
        &rt,
        rt.alloc(),
        &RELEASES_TO_THREE,
        (FIVE_A, &[]),
        (5, b"", b"fault core 0 at 0x10c0 NoReleaser\n", b""),
        (b"", b"", 0, 0),
    )
}

/// An image like that of `image`, with segments of 131,072 bytes.
fn wide_image(alloc: Global, code: &[u8]) -> Result<Vec<u8>, NoMemory> {
    let mut bytes = Vec::new(alloc);
    bytes.extend_from_slice(&SMALL[..18])?;
    bytes.push(2)?;
    bytes.extend_from_slice(&SMALL[19..24])?;
    bytes.push((code.len() % 256) as u8)?;
    bytes.extend_from_slice(&SMALL[25..44])?;
    bytes.extend_from_slice(code)?;
    Ok(bytes)
}

/// Runs a code in segments of 131,072 bytes with a pad of 1,048,576 zero bytes, up to an output at its limit, and asserts the
/// audit's length.
fn assert_fills(rt: &impl Abort, alloc: Global, code: &[u8], length: usize) -> Result<(), Fail> {
    let bytes = wide_image(alloc, code)?;
    let pad = vec![in alloc; 0u8; 1_048_576]?;
    let mut trusted: Vec<Option<Box<dyn Trusted>>> = Vec::new(alloc);
    trusted.push(Some(Box::new(alloc, XorPad::new(alloc, pad, Vec::new(alloc))?)?))?;
    let line: &[u8] = b"fault core 0 at 0x10c0 OutLimit\n";
    let audit = run_with(rt, alloc, bytes.as_slice(), &mut trusted, (5, b"", line))?;
    assert_eq!(rt; audit.len(), length);
    Ok(())
}

/// The longest release, one that is too long, and those that fill the audit exactly and that pass its limit by one byte.
#[test]
fn tells_long_releases(rt: HostRuntime) -> Result<(), Fail> {
    let alloc = rt.alloc();
    assert_fills(&rt, alloc, &TOO_LONG, 0)?;
    assert_fills(&rt, alloc, &LONGEST, 15 * 65_544)?;
    assert_fills(&rt, alloc, &FILLS_AUDIT, 1_048_576)?;
    assert_fills(&rt, alloc, &PASSES_AUDIT, 16 * 61_681)
}
