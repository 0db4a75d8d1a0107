//! Words, lines and their faults.
use net_types::Client;
use script_words::{BadWord, Cursor, ReadFault, all_allowed, count, is_skipped, next_line};
use std::test::Fail;

/// A text that begins with a line, the line, and what stands behind it.
const LINES: [(&[u8], &[u8], &[u8]); 3] = [
    (b"callers 2\n\nphase", b"callers 2", b"\nphase"),
    (b"\nphase", b"", b"phase"),
    (b"phase", b"phase", b""),
];

/// A line, whether it is skipped, and whether its bytes are allowed.
const KINDS: [(&[u8], bool, bool); 4] = [
    (b"  ", true, true),
    (b"  #5 via ~", true, true),
    (b"0 #", false, true),
    (b"#\t", true, false),
];

#[test]
fn lines_end_at_line_feeds(rt: HostRuntime) -> Result<(), Fail> {
    for (text, first, behind) in LINES {
        let (line, rest) = next_line(text).ok_or("no line")?;
        assert_eq!(rt; line, first);
        assert_eq!(rt; rest, behind);
    }
    assert!(rt; next_line(b"").is_none());
    for (line, skipped, allowed) in KINDS {
        assert_eq!(rt; is_skipped(line), skipped);
        assert_eq!(rt; all_allowed(line), allowed);
    }
    Ok(())
}

#[test]
fn fields_are_taken_in_turn(rt: HostRuntime) -> Result<(), Fail> {
    let mut cursor = Cursor::new(b" route  set 7 ebgp ");
    assert_eq!(rt; count(b" route  set 7 ebgp "), 4);
    assert!(rt; cursor.take(b"route"));
    assert!(rt; !cursor.take(b"del"));
    assert!(rt; cursor.take(b"set"));
    assert_eq!(rt; cursor.number(0, 6), Err(BadWord { left: 2 }));
    assert_eq!(rt; cursor.number(0, 65_535), Ok(7));
    assert_eq!(rt; cursor.end(), Err(BadWord { left: 1 }));
    assert_eq!(rt; cursor.client(), Ok(Client::Ebgp));
    assert_eq!(rt; cursor.end(), Ok(()));
    assert_eq!(rt; cursor.client(), Err(BadWord { left: 0 }));
    assert_eq!(rt;
        Cursor::new(b"07 x").number(0, 65_535),
        Err(BadWord { left: 2 })
    );
    Ok(())
}

#[test]
fn faults_are_printed(rt: HostRuntime) -> Result<(), Fail> {
    let alloc = rt.alloc();
    let bad = BadWord { left: 3 };
    let text = "a bad word with 3 words left";
    assert_eq!(rt; format!(in alloc; "{bad}")?.as_str(), text);
    for (fault, text) in [
        (ReadFault::Left(3), text),
        (ReadFault::Memory, "no memory is left"),
    ] {
        assert_eq!(rt; format!(in alloc; "{fault}")?.as_str(), text);
    }
    Ok(())
}
