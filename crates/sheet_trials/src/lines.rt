// Lines and what is made of them.
use std::test::*;
use tokens::number::number;
use tokens::words::words;

fn same(word: &[u8], text: &[u8]) -> bool {
    word == text
}

#[test]
fn words_are_cut(rt: HostRuntime) -> Result<(), Fail> {
    let cut = words(rt.alloc(), b" \tlink  7\r 08#9 10")?;
    assert!(rt; cut.len() == 3);
    assert!(rt; same(cut[0], b"link") && same(cut[1], b"7") && same(cut[2], b"08"));
    assert_eq!(rt; words(rt.alloc(), b" \t# help")?.len(), 0);
    Ok(())
}

#[test]
fn numbers_are_read(rt: HostRuntime) -> Result<(), Fail> {
    assert_eq!(rt; number(b"65535", 65535), Some(65535));
    assert_eq!(rt; number(b"65536", 65535), None);
    assert_eq!(rt;
        number(b"0000000000000000000000004294967295", 4294967295),
        Some(4294967295)
    );
    assert_eq!(rt; number(b"4294967296", 4294967295), None);
    assert_eq!(rt; number(b"", 9), None);
    assert_eq!(rt; number(b"+1", 9), None);
    Ok(())
}
