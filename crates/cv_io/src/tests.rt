//! The stores and sinks in memory, at calls that succeed and at each call that fails.

ghost use Rattle.std.specs.Prelude.{◌≡◌, ℕ, List, None, OnOk, OnErr, IsErrOf};
ghost use Rattle.cv_io.specs.Counts.{HasRisen};
ghost use Rattle.cv_io.specs.Files.{HasFile, LacksFile, files_with};
ghost use Rattle.cv_io.specs.Output.{appended};

use super::*;
use std::alloc::Global;
use std::test::Fail;

#[test]
fn files_come_back(rt: HostRuntime) -> Result<(), Fail> {
    let alloc = rt.alloc();
    let mut store = MemStore::new(alloc);
    store.add("key", b"old")?;
    store.add("key", b"later")?;
    store.save("out", &[1, 2, 3])?;
    store.save("empty", &[])?;
    store.save("out", &[4])?;
    let cases: [(&str, &[u8]); 3] = [("key", b"later"), ("out", &[4]), ("empty", &[])];
    for (name, want) in cases {
        let bytes = store.load(alloc, name)?;
        assert_eq!(rt; bytes.as_slice(), want, "at {name}");
    }
    assert_eq!(rt; store.load(alloc, "ke").err(), Some(StoreError::Missing));
    assert_eq!(rt; store.faults(), 0);
    Ok(())
}

/// A save, a load, a load of a name that is not there and a save, of which some fail.
#[test]
fn store_fails_at_each_call(rt: HostRuntime) -> Result<(), Fail> {
    let alloc = rt.alloc();
    for failing in 1..5u64 {
        let mut store = MemStore::new(alloc);
        store.add("a", &[7])?;
        store.fail_at(failing)?;
        store.fail_at(0)?;
        store.fail_at(9)?;
        let answers = [
            store.save("a", &[8, 9]).err(),
            store.load(alloc, "a").err(),
            store.load(alloc, "b").err(),
            store.save("c", &[1]).err(),
        ];
        let mut want = [None, None, Some(StoreError::Missing), None];
        want[failing as usize - 1] = Some(StoreError::Failed);
        assert_eq!(rt; answers, want, "at {failing}");
        assert_eq!(rt; store.faults(), 1, "at {failing}");

        let a: &[u8] = if failing == 1 { &[7] } else { &[8, 9] };
        assert_eq!(rt; store.load(alloc, "a")?.as_slice(), a, "at {failing}");
        let c = if failing == 4 {
            Some(StoreError::Missing)
        } else {
            None
        };
        assert_eq!(rt; store.load(alloc, "c").err(), c, "at {failing}");
        assert_eq!(rt; store.faults(), 1, "at {failing}");
    }
    Ok(())
}

#[test]
fn pieces_follow_one_another(rt: HostRuntime) -> Result<(), Fail> {
    let mut sink = MemSink::new(rt.alloc());
    assert_eq!(rt; sink.bytes(), [].as_slice());
    sink.put(b"ab")?;
    sink.put(b"")?;
    sink.put(b"c")?;
    assert_eq!(rt; sink.bytes(), b"abc".as_slice());
    assert_eq!(rt; sink.faults(), 0);
    Ok(())
}

/// Puts of `abcd`, `ef` and `g`, of which one fails and keeps a front.
#[test]
fn sink_fails_at_each_put(rt: HostRuntime) -> Result<(), Fail> {
    let cases: [(u64, usize, &[u8]); 6] = [
        (1, 3, b"abcefg"),
        (1, 0, b"efg"),
        (2, 1, b"abcdeg"),
        (2, 2, b"abcdefg"),
        (3, 9, b"abcdefg"),
        (4, 0, b"abcdefg"),
    ];
    for (failing, keep, want) in cases {
        let mut sink = MemSink::new(rt.alloc());
        sink.fail_at(failing, keep)?;
        sink.fail_at(failing, 1)?;
        let answers = [sink.put(b"abcd"), sink.put(b"ef"), sink.put(b"g")];
        for (put, answer) in answers.iter().enumerate() {
            let fails = put as u64 + 1 == failing;
            let wanted = if fails {
                Err(SinkError::Failed)
            } else {
                Ok(())
            };
            assert_eq!(rt; *answer, wanted, "put {put} at {failing}");
        }
        assert_eq!(rt; sink.bytes(), want, "at {failing}, keeping {keep}");
        assert_eq!(rt; sink.faults(), if failing == 4 { 0 } else { 1 });
    }
    Ok(())
}

/// Loads a file, puts it out, and saves it under another name, over any store and any sink.
fn copy<S: Store, O: Sink>(
    alloc: Global,
    store: &mut S,
    out: &mut O,
    from: &str,
    to: &str,
) -> Result<(), CopyError>
    ensures ok { OnOk result ((bytes : List ℕ) × HasFile (S.contents store.old) from.now bytes
        × (S.contents store.new ≡ files_with (S.contents store.old) to.now bytes)
        × (O.held out.new ≡ appended (O.held out.old) bytes)) }
    ensures missing { IsErrOf result (CopyError.Store StoreError.Missing) → LacksFile (S.contents store.old) from.now }
    ensures store_failed { IsErrOf result (CopyError.Store StoreError.Failed) → HasRisen (S.faults store.old) (S.faults store.new) }
    ensures sink_failed { IsErrOf result (CopyError.Sink SinkError.Failed) → HasRisen (O.faults out.old) (O.faults out.new) }
    ensures unsaved { OnErr result (S.contents store.new ≡ S.contents store.old) }
{
    let bytes = match store.load(alloc, from) {
        Ok(bytes) => bytes,
        Err(error) => return Err(CopyError::Store(error)),
    };
    if let Err(error) = out.put(&bytes) {
        return Err(CopyError::Sink(error));
    }
    match store.save(to, &bytes) {
        Ok(()) => Ok(()),
        Err(error) => Err(CopyError::Store(error)),
    }
}

#[derive(Clone, Copy, Debug, PartialEq, Eq)]
enum CopyError {
    Store(StoreError),
    Sink(SinkError),
}

/// A store and a sink that tell nothing and always fail.
#[derive(Drop)]
struct Broken {
    faults: u64,
}

impl Store for Broken {
    ghost contents = { λ _. None };

    ghost faults = { λ broken. broken.faults };

    fn load(&mut self, _alloc: Global, _name: &str) -> Result<Vec<u8>, StoreError> {
        self.faults = self.faults.saturating_add(1);
        Err(StoreError::Failed)
    }

    fn save(&mut self, _name: &str, _bytes: &[u8]) -> Result<(), StoreError> {
        self.faults = self.faults.saturating_add(1);
        Err(StoreError::Failed)
    }
}

impl Sink for Broken {
    ghost held = { λ _. None };

    ghost faults = { λ broken. broken.faults };

    fn put(&mut self, _bytes: &[u8]) -> Result<(), SinkError> {
        self.faults = self.faults.saturating_add(1);
        Err(SinkError::Failed)
    }
}

#[test]
fn copies_by_the_traits(rt: HostRuntime) -> Result<(), Fail> {
    let alloc = rt.alloc();
    let mut store = MemStore::new(alloc);
    let mut out = MemSink::new(alloc);
    store.add("from", b"text")?;
    copy(alloc, &mut store, &mut out, "from", "to")?;
    assert_eq!(rt; out.bytes(), b"text".as_slice());
    assert_eq!(rt; store.load(alloc, "to")?.as_slice(), b"text".as_slice());

    let mut broken = Broken { faults: 0 };
    let unloaded = copy(alloc, &mut broken, &mut out, "from", "to");
    assert_eq!(rt; unloaded, Err(CopyError::Store(StoreError::Failed)));
    let unput = copy(alloc, &mut store, &mut broken, "from", "to");
    assert_eq!(rt; unput, Err(CopyError::Sink(SinkError::Failed)));
    assert_eq!(rt; broken.faults, 2);
    Ok(())
}

/// Two releases over a pad: what both answer, how many fail, and the length of the last that does.
#[test]
fn pad_answers_and_fails(rt: HostRuntime) -> Result<(), Fail> {
    let alloc = rt.alloc();
    let rows: [(&[u8], u64, &[u8], &[u8], &[u8], u64, u64); 7] = [
        // The second release fails.
        (&[0x5a; 8], 2, &[0], &[0], &[0x5a], 1, 1),
        // The bytes that are left are used, and no more than these.
        (
            &[1, 2, 4],
            3,
            &[0xf0, 0x0f],
            &[0xff],
            &[0xf1, 0x0d, 0xfb],
            0,
            0,
        ),
        // The pad is one byte short.
        (&[1, 2, 4], 0, &[0xf0, 0x0f], &[0, 0], &[0xf1, 0x0d], 1, 2),
        // A release that fails uses none of the pad.
        (&[1, 2, 4], 1, &[7, 7, 7], &[0, 0, 0], &[1, 2, 4], 1, 3),
        // Releases of 0 bytes.
        (&[], 0, &[], &[], &[], 0, 0),
        (&[], 2, &[], &[], &[], 1, 0),
        (&[], 0, &[], &[9], &[], 1, 1),
    ];
    for (bytes, failing, first, second, told, faults, failed_len) in rows {
        let fails = vec![in alloc; failing, 0, 9]?;
        let mut pad = XorPad::new(alloc, Vec::from_slice(alloc, bytes)?, fails)?;
        let answers = [
            pad.release(first, &mut Vec::from_slice(alloc, first)?)
                .is_err(),
            pad.release(second, &mut Vec::from_slice(alloc, second)?)
                .is_err(),
        ];
        assert_eq!(rt; answers, [failing == 1, failing != 1 && faults == 1]);
        assert_eq!(rt; pad.told(), told, "with {bytes:?}, failing at {failing}");
        assert_eq!(rt; pad.faults(), faults);
        assert_eq!(rt; pad.failed_len(), failed_len);
    }
    Ok(())
}

/// Class 1 has a pad, and no other class has a releaser. A release of 0 bytes is one of the three that
/// are counted.
#[test]
fn a_class_is_asked(rt: HostRuntime) -> Result<(), Fail> {
    let alloc = rt.alloc();
    let pad = XorPad::new(alloc, vec![in alloc; 0x5a, 0xa5, 1]?, vec![in alloc; 3]?)?;
    let mut trusted: Vec<Option<Box<dyn Trusted>>> = Vec::new(alloc);
    trusted.push(None)?;
    trusted.push(Some(Box::new(alloc, pad)?))?;
    for class in [0, 2, 1 << 32, u64::MAX] {
        assert!(rt; !is_held(&trusted, class), "class {class}");
    }

    let mut to = [0, 0];
    assert!(rt; is_held(&trusted, 1));
    ask(&mut trusted, 1, &[0x03, 0xff], &mut to)?;
    assert_eq!(rt; to, [0x59, 0x5a]);
    assert!(rt; is_held(&trusted, 1));
    ask(&mut trusted, 1, &[], &mut [])?;
    assert!(rt; is_held(&trusted, 1));
    assert_eq!(rt; ask(&mut trusted, 1, &[7], &mut to[..1]), Err(TrustFault));

    assert_eq!(rt; trusted.len(), 2);
    let releaser = trusted[1].as_ref().ok_or("no releaser")?;
    assert_eq!(rt; releaser.heard(), [0x03, 0xff].as_slice());
    assert_eq!(rt; releaser.told(), [0x59, 0x5a].as_slice());
    assert_eq!(rt; releaser.failed_len(), 1);
    assert_eq!(rt; releaser.faults(), 1);
    Ok(())
}
