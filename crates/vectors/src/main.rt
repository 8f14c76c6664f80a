// The published vectors of 32-bit FNV-1a: a line for each, which the gate compares with `stdout`. Where one cannot be written, the run goes on
// without it.
#![tactic(auto)]

fn main(rt: HostRuntime) {
    let vectors: [&[u8]; 32] = [
        // The letters of "foobar", one more at a time.
        b"",
        b"a",
        b"b",
        b"c",
        b"d",
        b"e",
        b"f",
        b"fo",
        b"foo",
        b"foob",
        b"fooba",
        b"foobar",
        // Each with a zero byte behind it.
        b"\0",
        b"a\0",
        b"b\0",
        b"c\0",
        b"d\0",
        b"e\0",
        b"f\0",
        b"fo\0",
        b"foo\0",
        b"foob\0",
        b"fooba\0",
        b"foobar\0",
        // Longer ones.
        b"ch",
        b"cho",
        b"chon",
        b"chong",
        b"chongo",
        b"chongo ",
        b"chongo was here!\n",
        b"\xff\x00\x00\x01",
    ];
    for bytes in vectors {
        let _ = println!(rt; "{:08x}", ring::hash(bytes));
    }
}
