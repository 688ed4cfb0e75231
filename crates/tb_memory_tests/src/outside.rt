use std::test::Fail;
use tb_base::{Fault, FileError, Files, MemFiles, MemSink, MemSource, Sink, Source, put_all};

#[test]
fn a_source_gives_pieces_until_its_end(rt: HostRuntime) -> Result<(), Fail> {
    let fail = vec![in rt.alloc(); 2u64]?;
    let mut source = MemSource::new(b"abcde".to_vec(rt.alloc())?, fail);
    let mut buffer = [0u8; 2];
    for (want, bytes) in [
        (Ok(2), b"ab"),
        (Err(Fault), b"ab"),
        (Ok(2), b"cd"),
        (Ok(1), b"ed"),
        (Ok(0), b"ed"),
    ] {
        assert_eq!(rt; source.take(&mut buffer), want);
        assert_eq!(rt; buffer.as_slice(), bytes.as_slice());
    }
    Ok(())
}

#[test]
fn a_sink_takes_what_fits(rt: HostRuntime) -> Result<(), Fail> {
    let fail = vec![in rt.alloc(); 3u64]?;
    let mut sink = MemSink::new(rt.alloc(), 5, 2, fail).ok().ok_or("memory")?;
    for (want, bytes) in [
        (Ok(2), "xy"),
        (Ok(2), "xyxy"),
        (Err(Fault), "xyxy"),
        (Err(Fault), "xyxy"),
    ] {
        assert_eq!(rt; sink.put(b"xyz"), want);
        assert_eq!(rt; sink.bytes(), bytes.as_bytes());
    }
    assert_eq!(rt; sink.put(b"z"), Ok(1));
    assert_eq!(rt; sink.bytes(), b"xyxyz".as_slice());
    Ok(())
}

#[test]
fn a_piece_goes_out_whole_or_in_front(rt: HostRuntime) -> Result<(), Fail> {
    for (room, fails, want, bytes) in [
        (9, 9u64, Ok(()), "hello"),
        (9, 4, Err(Fault), "hel"),
        (2, 9, Err(Fault), "he"),
        (0, 9, Err(Fault), ""),
    ] {
        let fail = vec![in rt.alloc(); fails]?;
        let mut sink = MemSink::new(rt.alloc(), room, 1, fail)
            .ok()
            .ok_or("memory")?;
        assert_eq!(rt; put_all(&mut sink, b"hello"), want);
        assert_eq!(rt; sink.bytes(), bytes.as_bytes());
    }
    Ok(())
}

#[test]
fn the_first_file_of_a_name_is_read(rt: HostRuntime) -> Result<(), Fail> {
    let mut held = Vec::new(rt.alloc());
    for (name, bytes) in [("a", "one"), ("b", "two"), ("b", "three")] {
        held.push((
            String::from_str(rt.alloc(), name)?,
            bytes.as_bytes().to_vec(rt.alloc())?,
        ))?;
    }
    let fail = vec![in rt.alloc(); 5u64, 6]?;
    let mut files = MemFiles::new(rt.alloc(), held, fail);
    let mut buffer = [0u8; 8];
    assert_eq!(rt; files.take(&mut buffer), Ok(0));
    assert_eq!(rt; files.open("c"), Err(FileError::Fault));
    assert_eq!(rt; files.open("b"), Ok(()));
    assert_eq!(rt; files.take(&mut buffer), Ok(3));
    assert_eq!(rt; &buffer[..3], b"two".as_slice());
    assert_eq!(rt; files.open("a"), Err(FileError::Fault));
    assert_eq!(rt; files.take(&mut buffer), Err(Fault));
    let names = files.asked();
    assert_eq!(rt; names.len(), 3);
    for (name, want) in names.iter().zip(["c", "b", "a"]) {
        assert_eq!(rt; name.as_str(), want);
    }
    Ok(())
}
