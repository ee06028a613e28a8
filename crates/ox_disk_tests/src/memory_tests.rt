// A disk that crashes, and a sink.
use ox_memory::{Image, MemoryDisk, MemorySink};
use ox_outside::{Disk, Sink};
use std::alloc::Global;
use std::test::Fail;

// A disk with `abc`, and behind its last sync `XYZ` from place 1 on.
fn written(alloc: Global) -> Result<Option<MemoryDisk>, Fail> {
    let mut disk = MemoryDisk::sound(alloc)?;
    if disk.write_at(0, b"abc").is_err() || disk.sync().is_err() {
        return Ok(None);
    }
    if disk.write_at(1, b"XYZ").is_err() {
        return Ok(None);
    }
    Ok(Some(disk))
}

fn crashed(alloc: Global, image: Image) -> Result<[u8; 5], Fail> {
    let mut bytes = [0u8; 5];
    if let Some(mut disk) = written(alloc)? {
        disk.crash(image);
        let _ = disk.read_at(0, &mut bytes);
    }
    Ok(bytes)
}

#[test]
fn a_crash_leaves_its_image(rt: HostRuntime) -> Result<(), Fail> {
    let cases = [
        (Image::NoneKept, [97, 98, 99, 0, 0]),
        (Image::AllKept, [97, 88, 89, 90, 0]),
        (Image::Torn, [97, 1, 1, 1, 0]),
    ];
    for (image, bytes) in cases {
        assert_eq!(rt; crashed(rt.alloc(), image)?, bytes);
    }
    Ok(())
}

#[test]
fn a_sink_takes_all(rt: HostRuntime) -> Result<(), Fail> {
    let mut sink = MemorySink::sound(rt.alloc())?;
    assert!(rt; matches!(sink.write(b"xy"), Ok(2)));
    assert_eq!(rt; sink.bytes(), b"xy".as_slice());
    Ok(())
}
