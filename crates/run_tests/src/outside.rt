// The outside: sinks, sources, files and bits.

use crate::in_memory::{put_on_a_vector, two_files};
use std::fs;
use std::process::Abort;
use std::test::Fail;
use terminal::KeepingSink;
use zar_io::{
    Bits, Failed, FaultyBits, FileBits, Files, Gate, HostFiles, HostSink, MemFiles, MemSink,
    NullSink, OneFile, Open, OpenError, Ready, Sink, SourceError, StreamBits, put, read_source,
};

// The answer that a letter stands for: a bit, that none is left, or a fault.
fn answer_of(letter: char) -> Result<Option<bool>, Failed> {
    match letter {
        'f' => Err(Failed),
        '-' => Ok(None),
        bit => Ok(Some(bit == '1')),
    }
}

// The next answers are those of a text of `0`, `1`, `-` and `f`.
fn assert_bits<B: Bits>(rt: &impl Abort, bits: &mut B, want: &str) {
    for c in want.chars() {
        assert_eq!(rt; bits.next(), answer_of(c), "in {want}");
    }
}

#[test]
fn puts_a_whole_piece_or_its_front(rt: HostRuntime) -> Result<(), Fail> {
    let line: &[u8] = b"value 1 bits 3\n";
    let table: [(usize, usize, &[u64], Result<(), Failed>, &str); 5] = [
        (1, 65_536, &[], Ok(()), "value 1 bits 3\n"),
        (4, 65_536, &[], Ok(()), "value 1 bits 3\n"),
        (4, 65_536, &[1], Err(Failed), "valu"),
        (4, 65_536, &[0], Err(Failed), ""),
        (1, 5, &[], Err(Failed), "value"),
    ];
    for (step, room, fails, answer, want) in table {
        assert!(rt; step > 0);
        let mut sink = MemSink::new(rt.alloc(), step, room, fails)?;
        assert_eq!(rt; put(&mut sink, line), answer, "for {want}");
        assert_eq!(rt; sink.bytes(), want.as_bytes(), "for {want}");
    }
    Ok(())
}

#[test]
fn puts_nothing_of_an_empty_piece(rt: HostRuntime) -> Result<(), Fail> {
    let mut sink = MemSink::new(rt.alloc(), 1, 9, &[0])?;
    assert_eq!(rt; put(&mut sink, b""), Ok(()));
    assert_eq!(rt; put(&mut sink, b"a"), Err(Failed));
    assert_eq!(rt; put(&mut sink, b"b"), Ok(()));
    assert_eq!(rt; sink.bytes(), b"b".as_slice());
    Ok(())
}

#[test]
fn a_sink_takes_what_it_has_room_for(rt: HostRuntime) -> Result<(), Fail> {
    let mut sink = MemSink::new(rt.alloc(), 4, 5, &[])?;
    assert_eq!(rt; sink.write(b"abcdef"), Ok(4));
    assert_eq!(rt; sink.write(b"ef"), Ok(1));
    assert_eq!(rt; sink.write(b"f"), Err(Failed));
    assert_eq!(rt; sink.bytes(), b"abcde".as_slice());
    Ok(())
}

#[test]
fn reads_a_source_or_says_why_not(rt: HostRuntime) -> Result<(), Fail> {
    let alloc = rt.alloc();
    let table: [(&str, &[u64], Result<&str, SourceError>); 5] = [
        ("text", &[], Ok("skip; return 7;")),
        ("nothing", &[], Err(SourceError::Missing)),
        ("nothing", &[0], Err(SourceError::Read)),
        ("text", &[0], Err(SourceError::Read)),
        ("text", &[3], Err(SourceError::Read)),
    ];
    for (name, fails, want) in table {
        let mut files = two_files(alloc, 1, fails)?;
        match read_source(alloc, &mut files, name) {
            Ok(bytes) => assert_eq!(rt; Ok(bytes.as_slice()), want.map(|text| text.as_bytes())),
            Err(SourceError::OutOfMemory) => Err(SourceError::OutOfMemory)?,
            Err(e) => assert_eq!(rt; Err(e), want.map(|text| text.len()), "at {name}"),
        }
    }
    Ok(())
}

#[test]
fn reads_the_front_of_a_long_source(rt: HostRuntime) -> Result<(), Fail> {
    let alloc = rt.alloc();
    for (len, want) in [(65_536, 65_536), (65_537, 65_537), (65_538, 65_537)] {
        let mut files = MemFiles::new(alloc, 1000, &[])?;
        files.add("long", &vec![in alloc; b' '; len]?)?;
        let bytes = read_source(alloc, &mut files, "long")?;
        assert_eq!(rt; bytes.len(), want);
    }
    Ok(())
}

#[test]
fn a_name_that_is_added_again_has_the_new_bytes(rt: HostRuntime) -> Result<(), Fail> {
    let alloc = rt.alloc();
    let mut files = two_files(alloc, 3, &[])?;
    files.add("bits", b"other")?;
    assert_eq!(rt;
        read_source(alloc, &mut files, "bits")?.as_slice(),
        b"other".as_slice()
    );
    let text = read_source(alloc, &mut files, "text")?;
    assert_eq!(rt; text.as_slice(), b"skip; return 7;".as_slice());
    Ok(())
}

#[test]
fn bits_come_from_the_most_significant_of_each_byte(rt: HostRuntime) -> Result<(), Fail> {
    // The read after the one that finds the end would fail, and is not made.
    for (step, fails) in [(1, [4]), (2, [3])] {
        let mut files = two_files(rt.alloc(), step, &fails)?;
        files.open("bits")?;
        let mut bits = FileBits::new(&mut files);
        assert_bits(&rt, &mut bits, "1100000011010100");
        assert_eq!(rt; bits.next(), Ok(None));
        assert_eq!(rt; bits.next(), Ok(None));
    }
    Ok(())
}

// `count` bits lie ready, those of this word, and `taken` of them are taken.
fn assert_ready<B: Bits>(rt: &impl Abort, bits: &mut B, word: u64, count: u32, taken: u32) {
    let ready = bits.peek();
    assert_eq!(rt; ready, Ready { word, count });
    if taken <= ready.count {
        bits.take(taken);
    }
}

#[test]
fn bits_of_a_file_lie_ready_once_it_was_read(rt: HostRuntime) -> Result<(), Fail> {
    let mut files = OneFile::new(rt.alloc(), 4096, b"abcdefghij")?;
    files.open("bits")?;
    let mut bits = FileBits::new(&mut files);
    assert_eq!(rt; bits.peek().count, 0);
    assert_eq!(rt; bits.next(), Ok(Some(false)));
    assert_ready(&rt, &mut bits, 0x6162_6364_6566_6768, 63, 63);
    assert_ready(&rt, &mut bits, 0x69, 8, 3);
    assert_ready(&rt, &mut bits, 0x69, 5, 0);
    assert_bits(&rt, &mut bits, "01001");
    assert_ready(&rt, &mut bits, 0x6a, 8, 8);
    assert_eq!(rt; bits.peek().count, 0);
    assert_eq!(rt; bits.next(), Ok(None));
    assert_eq!(rt; bits.peek().count, 0);
    Ok(())
}

#[test]
fn no_bit_is_left_after_a_fault(rt: HostRuntime) -> Result<(), Fail> {
    let mut files = two_files(rt.alloc(), 1, &[2, 3])?;
    files.open("bits")?;
    let mut bits = FileBits::new(&mut files);
    assert_bits(&rt, &mut bits, "11000000");
    assert_eq!(rt; bits.next(), Err(Failed));
    assert_eq!(rt; bits.next(), Ok(None));
    assert_eq!(rt; bits.next(), Ok(None));
    Ok(())
}

#[test]
fn bits_fail_by_their_plan(rt: HostRuntime) -> Result<(), Fail> {
    let table: [(&[u64], &str); 6] = [
        (&[], "110--"),
        (&[0], "f110-"),
        (&[1, 2, 7], "1ff10-----"),
        (&[3], "110f-"),
        (&[3, 4, 6], "110ff--"),
        (&[4], "110--"),
    ];
    for (fails, answers) in table {
        let mut bits = FaultyBits::new(rt.alloc(), &[true, true, false], fails)?;
        assert_ready(&rt, &mut bits, 0, 0, 0);
        assert_bits(&rt, &mut bits, answers);
    }
    Ok(())
}

#[test]
fn the_host_has_files_and_writers(rt: HostRuntime) -> Result<(), Fail> {
    let alloc = rt.alloc();
    let name = "zar_io_host_test.bin";
    let mut sink = HostSink::new(fs::create(&rt, name)?);
    put(&mut sink, &[0xc0, 0xd4])?;
    let mut files = HostFiles::new(&rt);
    assert_eq!(rt;
        read_source(alloc, &mut files, name)?.as_slice(),
        [0xc0, 0xd4].as_slice()
    );
    files.open(name)?;
    let mut bits = FileBits::new(&mut files);
    assert_bits(&rt, &mut bits, "1100000011010100");
    assert_eq!(rt; bits.next(), Ok(None));
    fs::remove_file(&rt, name)?;
    assert_eq!(rt; files.open(name), Err(OpenError::Missing));
    Ok(())
}

#[test]
fn writers_in_memory_tell_their_bytes(rt: HostRuntime) -> Result<(), Fail> {
    let alloc = rt.alloc();
    let mut bytes = b"value".to_vec(alloc)?;
    let mut sink = HostSink::new(&mut bytes);
    put(&mut sink, b" 1")?;
    put(&mut sink, b"\n")?;
    drop(sink);
    assert_eq!(rt; bytes.as_slice(), b"value 1\n".as_slice());
    put_on_a_vector(bytes, b"end")?;
    Ok(())
}

#[test]
fn a_write_that_takes_nothing_is_a_fault(rt: HostRuntime) {
    let mut room = [0; 3];
    let mut sink = HostSink::new(room.as_mut_slice());
    assert_eq!(rt; put(&mut sink, b"abcd"), Err(Failed));
}

#[test]
fn a_keeping_sink_keeps_the_front_of_what_is_written(rt: HostRuntime) -> Result<(), Fail> {
    let line: &[u8] = b"error E5 at 0";
    let table: [(usize, &[u64], &str); 4] = [
        (4, &[], "error E5 at 0"),
        (1, &[], "error E5 at 0"),
        (4, &[2], "error E5"),
        (4, &[0], ""),
    ];
    for (step, fails, want) in table {
        assert!(rt; step > 0);
        let mut sink = KeepingSink::new(MemSink::new(rt.alloc(), step, 65_536, fails)?);
        assert_eq!(rt;
            put(&mut sink, line).is_ok(),
            fails.is_empty(),
            "for {want}"
        );
        assert_eq!(rt; sink.kept(), want.as_bytes(), "for {want}");
    }
    Ok(())
}

#[test]
fn a_keeping_sink_keeps_64_bytes(rt: HostRuntime) -> Result<(), Fail> {
    let text = [b'x'; 70];
    let mut sink = KeepingSink::new(NullSink::new());
    put(&mut sink, &text[..60])?;
    put(&mut sink, &text[60..])?;
    assert_eq!(rt; sink.kept(), &text[..64]);
    Ok(())
}

#[test]
fn one_file_has_every_name(rt: HostRuntime) -> Result<(), Fail> {
    let alloc = rt.alloc();
    let mut files = OneFile::new(alloc, 4, b"skip; return 7;")?;
    for name in ["text", "bits"] {
        let text = read_source(alloc, &mut files, name)?;
        assert_eq!(rt; text.as_slice(), b"skip; return 7;".as_slice());
    }
    Ok(())
}

#[test]
fn a_null_sink_takes_every_piece_whole(rt: HostRuntime) {
    let mut sink = NullSink::new();
    assert_eq!(rt; sink.write(b"value"), Ok(5));
    assert_eq!(rt; put(&mut sink, b"value"), Ok(()));
    assert_eq!(rt; put(&mut sink, b""), Ok(()));
}

#[test]
fn streams_begin_with_published_words(rt: HostRuntime) {
    // The first words of blocks of RFC 8439, appendix A.1, test vectors 1, 2, 4 and 5: ade0b876, bee7079f,
    // fb4dd572 and 374dc6c2.
    let table: [(u64, u64, u64, &str); 4] = [
        (0, 0, 0, "10101101111000001011100001110110"),
        (0, 0, 1, "10111110111001110000011110011111"),
        (0xff00, 0, 2, "11111011010011011101010101110010"),
        (0, 1 << 57, 0, "00110111010011011100011011000010"),
    ];
    for (seed, stream, block, word) in table {
        assert!(rt; block < 3);
        let mut bits = StreamBits::new(seed, stream, 512 * block + 32);
        for _ in 0..512 * block {
            assert!(rt; bits.next().is_ok());
        }
        assert_bits(&rt, &mut bits, word);
        assert_eq!(rt; bits.next(), Ok(None));
        assert_eq!(rt; bits.next(), Ok(None));
    }
}

// Streams of the table above, each begun where another was read.
#[test]
fn a_stream_is_begun_anew(rt: HostRuntime) {
    let mut bits = StreamBits::new(7, 3, 100);
    assert!(rt; bits.next().is_ok());
    bits.begin(0, 0, 544);
    for _ in 0..512 {
        assert!(rt; bits.next().is_ok());
    }
    assert_bits(&rt, &mut bits, "10111110111001110000011110011111");
    bits.begin(0, 1 << 57, 32);
    assert_bits(&rt, &mut bits, "00110111010011011100011011000010");
    bits.begin(0, 0, 32);
    assert_bits(&rt, &mut bits, "10101101111000001011100001110110");
    assert_eq!(rt; bits.next(), Ok(None));
}

// The first words of the first block are ade0b876 and 903df1a0.
#[test]
fn words_of_a_stream_lie_ready(rt: HostRuntime) {
    let mut bits = StreamBits::new(0, 0, 40);
    assert_ready(&rt, &mut bits, 0xade0_b876, 32, 3);
    assert_bits(&rt, &mut bits, "01");
    assert_ready(&rt, &mut bits, 0xade0_b876, 27, 27);
    assert_ready(&rt, &mut bits, 0x90, 8, 8);
    assert_ready(&rt, &mut bits, 0, 0, 0);
    assert_eq!(rt; bits.next(), Ok(None));
}

#[test]
fn the_open_gate_lets_pass() {
    Open.entered(3);
}
