/// 10,000 kbit/s, all of which may be reserved, and no gap below 1 ms.
pub(crate) const PORT: &[u8] = b"P\x00\x00\x27\x10\x00\x00\x27\x10\x01";

/// That port; link 1 with 200 bytes every 80 ms and 250 every 160 ms, and link 2 with 250 bytes every 220 ms and 200
/// every 40 ms; a solve by the reserve, and one by the burst.
pub(crate) const TWO_LINKS: &[u8] = b"\
    P\x00\x00\x27\x10\x00\x00\x27\x10\x01\
    L\x00\x01\
    F\x00\x01\x00\x01\x00\xC8\x00\x50\
    F\x00\x01\x00\x02\x00\xFA\x00\xA0\
    L\x00\x02\
    F\x00\x02\x00\x03\x00\xFA\x00\xDC\
    F\x00\x02\x00\x04\x00\xC8\x00\x28\
    S\x01\x00\x00\x00\x2A\
    S\x02\x00\x00\x00\x24";
