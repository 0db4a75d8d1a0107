//! Texts that are kept in a folder and loaded again, and what stands in their places.
use io_edge::{DirStore, Store, StoreFault};
use net_types::Name;
use std::alloc::Global;
use std::fs;
use std::os::unix::fs::symlink;
use std::test::Fail;

/// What is done at a name, and what comes of it.
#[derive(Clone, Copy, Debug, PartialEq, Eq)]
enum Step<'a> {
    /// A keep that ends well.
    Keeps(&'a [u8]),
    /// A keep that fails.
    Refuses(&'a [u8]),
    /// A load of at most so many bytes that gives this text.
    Loads(usize, &'a [u8]),
    /// A load of at most so many bytes that ends with this fault.
    Fails(usize, StoreFault),
}

/// A folder `dir`, a link `link` to a file outside and what an interrupted keep left of `b` stand
/// there already.
const STEPS: [(&[u8], Step<'static>); 15] = [
    (b"a.txt", Step::Fails(10, StoreFault::Failed)),
    (b"a.txt", Step::Keeps(b"one")),
    (b"a.txt", Step::Loads(3, b"one")),
    (b"a.txt", Step::Keeps(b"three")),
    (b"a.txt", Step::Loads(5, b"three")),
    (b"a.txt", Step::Fails(4, StoreFault::TooLong)),
    (b"b", Step::Keeps(b"")),
    (b"b", Step::Loads(0, b"")),
    (b"link", Step::Fails(10, StoreFault::Failed)),
    (b"link", Step::Keeps(b"near")),
    (b"link", Step::Loads(10, b"near")),
    (b"dir", Step::Fails(10, StoreFault::Failed)),
    (b"dir", Step::Refuses(b"x")),
    (b"a.txt", Step::Loads(5, b"three")),
    (b"dir", Step::Fails(10, StoreFault::Failed)),
];

/// Whether the store does as the step says.
fn does<S: Store>(alloc: Global, store: &mut S, name: &Name, step: Step<'_>) -> bool {
    match step {
        Step::Keeps(text) => store.keep(name, text).is_ok(),
        Step::Refuses(text) => store.keep(name, text).is_err(),
        Step::Loads(limit, text) => match store.load(alloc, name, limit) {
            Ok(found) => {
                let is_text = found.as_slice() == text;
                drop(found);
                is_text
            }
            Err(_) => false,
        },
        Step::Fails(limit, fault) => match store.load(alloc, name, limit) {
            Ok(found) => {
                drop(found);
                false
            }
            Err(found) => found == fault,
        },
    }
}

/// The same, at the name of these bytes.
fn does_at<S: Store>(alloc: Global, store: &mut S, name: &[u8], step: Step<'_>) -> bool {
    match Name::of(alloc, name) {
        Ok(Some(name)) => {
            let is_done = does(alloc, store, &name, step);
            drop(name);
            is_done
        }
        _ => false,
    }
}

/// The place of the first step that goes otherwise.
fn first_other<S: Store>(alloc: Global, store: &mut S) -> Option<(&'static [u8], Step<'static>)> {
    for (name, step) in STEPS {
        if !does_at(alloc, store, name, step) {
            return Some((name, step));
        }
    }
    None
}

/// Takes away what a run of the test made, if there is anything.
fn clear(rt: &HostRuntime) {
    let _ = fs::remove_dir_all(rt, "store");
    let _ = fs::remove_file(rt, "outside");
}

#[test]
fn texts_are_kept_in_the_folder(rt: HostRuntime) -> Result<(), Fail> {
    let alloc = rt.alloc();
    clear(&rt);
    fs::create_dir(&rt, "store")?;
    fs::create_dir(&rt, "store/dir")?;
    fs::write(&rt, "outside", "far")?;
    fs::write(&rt, "store/.new-b", "half")?;
    symlink(&rt, "../outside", "store/link")?;
    let folder = String::from_str(alloc, "store")?;
    let files = rt.clone()?;
    let mut store = DirStore::new(files, alloc, folder);
    let other = first_other(alloc, &mut store);
    drop(store);
    assert!(rt; other.is_none());
    let outside = fs::read_to_string(&rt, "outside")?;
    let is_far = outside.as_str() == "far";
    drop(outside);
    assert!(rt; is_far);
    let left = fs::metadata(&rt, "store/.new-b");
    let is_clear = left.is_err();
    drop(left);
    assert!(rt; is_clear);
    clear(&rt);
    Ok(())
}
