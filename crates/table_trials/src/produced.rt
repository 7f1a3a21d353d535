// Images that g++ and GNU's as and ld wrote, with what is printed of them, and the same with their tables packed. The source is examples/packed_tables.cpp,
// which says how they were built. Frames are by readelf; the tables, before and after, by another program that follows docs/TABLES.md.

/// The table of a frame: its bytes with those up to the next one, and the lines that a dump has of it.
pub struct Table {
    pub bytes: &'static [u8],
    pub lines: &'static str,
}

/// An image by what stands before its tables, their frames' lines with the tables before they are packed and after, and what stands behind them;
/// the first lines of its dump, how many tables are packed, and how many bytes that saves.
pub struct Produced {
    pub front: &'static [u8],
    pub back: &'static [u8],
    pub head: &'static str,
    pub tables: &'static [(&'static str, Table, Table)],
    pub packed: u64,
    pub saved: u64,
}

// At fixed addresses; types are relative to their entries.
const FIXED: Produced = Produced {
    front: b"\x7fELF\x02\x01\x01\0\0\0\0\0\0\0\0\0\x02\0\xf3\0\x01\0\0\0\
\x20\x01\x01\0\0\0\0\0@\0\0\0\0\0\0\0\0\0\0\0\0\0\0\0\
\x05\0\0\0@\0\x38\0\x04\0\0\0\0\0\0\0\x01\0\0\0\x05\0\0\0\
\0\0\0\0\0\0\0\0\0\0\x01\0\0\0\0\0\0\0\x01\0\0\0\0\0\
\xd3\x04\0\0\0\0\0\0\xd3\x04\0\0\0\0\0\0@\0\0\0\0\0\0\0\
\x01\0\0\0\x06\0\0\0\0\x05\0\0\0\0\0\0\0\x05\x01\0\0\0\0\0\
\0\x05\x01\0\0\0\0\0\x20\0\0\0\0\0\0\0\x20\0\0\0\0\0\0\0\
@\0\0\0\0\0\0\0P\xe5td\x04\0\0\0\xf8\x02\0\0\0\0\0\0\
\xf8\x02\x01\0\0\0\0\0\xf8\x02\x01\0\0\0\0\0,\0\0\0\0\0\0\0\
,\0\0\0\0\0\0\0\x04\0\0\0\0\0\0\0Q\xe5td\x06\0\0\0\
\0\0\0\0\0\0\0\0\0\0\0\0\0\0\0\0\0\0\0\0\0\0\0\0\
\0\0\0\0\0\0\0\0\0\0\0\0\0\0\0\0\x10\0\0\0\0\0\0\0\
\x82\x80\x01\x11\"\xe8\x06\xec*\x84\x97\0\0\0\xe7\x80`\xff\x1b\x05\x14\0\x97\0\
\0\0\xe7\x80\xa0\xfe\x1b\x05$\0\x97\0\0\0\xe7\x80\xe0\xfd(\0\x97\0\0\0\
\xe7\x80@\xfd\x0a\x85\x97\0\0\0\xe7\x80\xa0\xfc\xe2`Bd\x05a\x82\x80*\x84\
(\0\x97\0\0\0\xe7\x80`\xfb\x0a\x85\x97\0\0\0\xe7\x80\xc0\xfa\"\x85\x97\0\
\0\0\xe7\x80\x20\xfa*\x84\xed\xb7A\x11\"\xe0\x06\xe4*\x84\x97\0\0\0\xe7\x80\
\xe0\xf8\x1b\x05\x14\0\x97\0\0\0\xe7\x80\x20\xf8\x01E\xa2`\x02dA\x01\x82\x80\
\x85Gc\x89\xf5\0\x89Gc\x80\xf5\x02\x97\0\0\0\xe7\x80@\xf6\x97\0\0\0\
\xe7\x80\xc0\xf5\x97\0\0\0\xe7\x80@\xf5\x05E\xc9\xbf\x97\0\0\0\xe7\x80\x80\xf4\
\x97\0\0\0\xe7\x80\0\xf4\x09E}\xbf\x01\x11\"\xe8\x06\xec*\x84\x97\0\0\0\
\xe7\x80\xc0\xf2\xa1\xa0\x01E\xe2`Bd\x05a\x82\x80\x0dGc\x8f\xe5\0\x85G\
c\x9b\xf5\x04\x97\0\0\0\xe7\x80\xc0\xf0\x97\0\0\0\xe7\x80@\xf0\x05E\xe9\xbf\
\x97\0\0\0\xe7\x80\x80\xef\x1b\x05\x14\0\x97\0\0\0\xe7\x80\xc0\xee\x97\0\0\0\
\xe7\x80@\xee\x1b\x05$\0\x97\0\0\0\xe7\x80\x80\xed}\xb7*\xe4.\xe0\x97\0\
\0\0\xe7\x80\xa0\xec\"e\x82eu\xb7m\xb7\x97\0\0\0\xe7\x80\xa0\xeb\x97\0\
\0\0\xe7\x80\x20\xeb\x09Ea\xb7A\x11\x06\xe4\x97\0\0\0\xe7\x80\x20\xea!\xa8\
\xfdWc\x86\xf5\0\x97\0\0\0\xe7\x80\x20\xe9\x97\0\0\0\xe7\x80\xa0\xe8\xa2`\
A\x01\x82\x80\0\0\0\0\0\0\0\0\0\0\0\0\0\0\0\0\0\0\0\0\
\0\0\0\0\0\0\0\0\x37Derived\0\0\0\0\0\0\0\0\
\xb8\x02\x01\0\0\0\0\0\xc0\x02\x01\0\0\0\0\0\xe8\x02\x01\0\0\0\0\0\
\xb8\x02\x01\0\0\0\0\0\0\x05\x01\0\0\0\0\0\x01\x1b\x03;,\0\0\0\
\x04\0\0\0*\xfe\xff\xffL\0\0\0\x92\xfe\xff\xfft\0\0\0\xf4\xfe\xff\xff\
\x9c\0\0\0\x82\xff\xff\xff\xc4\0\0\0\0\0\0\0\x18\0\0\0\0\0\0\0\
\x03zPLR\0\x01|\x01\x07\x9b\xdd\x01\0\0\x1b\x1b\x0d\x02\0$\0\0\0\
\x20\0\0\0\xd6\xfd\xff\xffh\0\0\0\x04\x8b\0\0\0B\x0e\x20D\x88\x04\x81\
\x02x\x0a\xc1B\xc8B\x0e\0B\x0b\0$\0\0\0H\0\0\0\x16\xfe\xff\xff\
b\0\0\0\x04\xab\0\0\0B\x0e\x10D\x88\x04\x81\x02Z\x0a\xc1B\xc8B\x0e\
\0B\x0b\0$\0\0\0p\0\0\0P\xfe\xff\xff\x8e\0\0\0\x04\xaf\0\0\
\0B\x0e\x20D\x88\x04\x81\x02P\x0a\xc1B\xc8B\x0e\0B\x0b\0\x1c\0\0\0\
\x98\0\0\0\xb6\xfe\xff\xff*\0\0\0\x04\xd7\0\0\0B\x0e\x10B\x81\x02b\
\xc1B\x0e\0\0\0\0\0",
    back: b"\0\0\0\0\0\0\0\0\0\0\0\0\0\0\0\0\0\0\0\0\0\0\0\0\
\0\0\0\0\0\0\0\0\0\0\0\0\0\0\0\0\0\0\0\0\0\x34Ba\
se\0\0\0\xe8\x02\x01\0\0\0\0\0\xd0\x02\x01\0\0\0\0\0\x20\x01\x01\
\0\0\0\0\0",
    head: "image entry 0x10120
segment 0x10000 0x104d3 r-x
segment 0x10500 0x10520 rw-
cie 0x10328 version 3 aug zPLR code 1 data -4 ra x1
",
    tables: &[
        (
            "frame 0x10122 0x1018a
  row 0x10122 cfa x2+0
  row 0x10124 cfa x2+32
  row 0x10128 cfa x2+32 x1=c-8 x8=c-16
  row 0x10160 cfa x2+32 x8=c-16
  row 0x10162 cfa x2+32
  row 0x10164 cfa x2+0
  row 0x10166 cfa x2+32 x1=c-8 x8=c-16
",
            Table {
                bytes: b"\xff\xff\x03A\x08\0\0\0\x08\0\0\0d\0\0\0\0\x14\0\0\0\x14\0\0\
\0D\0\0\0\0*\0\0\0\x08\0\0\0d\0\0\0\0\x34\0\0\0\x08\
\0\0\0\0\0\0\0\0\\\0\0\0\x08\0\0\0\0\0\0\0\0\0\0\0",
                lines: "  lsda 0x103e0
  site 0x1012a 0x10132 pad 0x10186 action 0
  site 0x10136 0x1014a pad 0x10166 action 0
  site 0x1014c 0x10154 pad 0x10186 action 0
  site 0x10156 0x1015e pad 0x0 action 0
  site 0x1017e 0x10186 pad 0x0 action 0
",
            },
            Table {
                bytes: b"\xff\xff\x01\x14\x08\x08d\0\x14\x14D\0*\x08d\0\x34\x08\0\0\\\x08\0\0\
\0\0\0\0\0\0\0\0\0\0\0\0\0\0\0\0\0\0\0\0\0\0\0\0\
\0\0\0\0\0\0\0\0\0\0\0\0\0\0\0\0\0\0\0\0\0\0\0\0",
                lines: "  lsda 0x103e0
  site 0x1012a 0x10132 pad 0x10186 action 0
  site 0x10136 0x1014a pad 0x10166 action 0
  site 0x1014c 0x10154 pad 0x10186 action 0
  site 0x10156 0x1015e pad 0x0 action 0
  site 0x1017e 0x10186 pad 0x0 action 0
",
            },
        ),
        (
            "frame 0x1018a 0x101ec
  row 0x1018a cfa x2+0
  row 0x1018c cfa x2+16
  row 0x10190 cfa x2+16 x1=c-8 x8=c-16
  row 0x101aa cfa x2+16 x8=c-16
  row 0x101ac cfa x2+16
  row 0x101ae cfa x2+0
  row 0x101b0 cfa x2+16 x1=c-8 x8=c-16
",
            Table {
                bytes: b"\xff\x1b)\x03\x1a\x08\0\0\0\x14\0\0\0&\0\0\0\x032\0\0\0\x08\0\
\0\0\0\0\0\0\0\x02\0\x01}\0\x9c\xfe\xff\xff\x80\xfe\xff\xff",
                lines: "  lsda 0x10428
  site 0x10192 0x101a6 pad 0x101b0 action 3
  site 0x101bc 0x101c4 pad 0x0 action 0
  action 3: 1 2
  type 1: 0x102d0
  type 2: 0x102e8
",
            },
            Table {
                bytes: b"\xff\x1b\x19\x01\x08\x08\x14&\x012\x08\0\0\x01\x01\x02\0\0\0\0\xac\xfe\xff\xff\
\x90\xfe\xff\xff\0\0\0\0\0\0\0\0\0\0\0\0\0\0\0\0",
                lines: "  lsda 0x10428
  site 0x10192 0x101a6 pad 0x101b0 action 1
  site 0x101bc 0x101c4 pad 0x0 action 0
  action 1: 1 2
  type 1: 0x102d0
  type 2: 0x102e8
",
            },
        ),
        (
            "frame 0x101ec 0x1027a
  row 0x101ec cfa x2+0
  row 0x101ee cfa x2+32
  row 0x101f2 cfa x2+32 x1=c-8 x8=c-16
  row 0x10202 cfa x2+32 x8=c-16
  row 0x10204 cfa x2+32
  row 0x10206 cfa x2+0
  row 0x10208 cfa x2+32 x1=c-8 x8=c-16
",
            Table {
                bytes: b"\xff\x1bM\x034\x08\0\0\0\x08\0\0\0\x1c\0\0\0\x05H\0\0\0\x08\0\
\0\0f\0\0\0\x07\\\0\0\0\x08\0\0\0x\0\0\0\x03\x82\0\0\0\
\x08\0\0\0\0\0\0\0\0\x02\0\x01}\x03}\0{\0\0\0\x38\xfe\xff\xff\
\0\0\0\0H\xfe\xff\xff",
                lines: "  lsda 0x10454
  site 0x101f4 0x101fc pad 0x10208 action 5
  site 0x10234 0x1023c pad 0x10252 action 7
  site 0x10248 0x10250 pad 0x10264 action 3
  site 0x1026e 0x10276 pad 0x0 action 0
  action 3: 1 2
  action 5: 3 1 2
  action 7: 0 1 2
  type 1: 0x102e8
  type 2: 0x0
  type 3: 0x102d0
",
            },
            Table {
                bytes: b"\xff\x1b)\x01\x11\x08\x08\x1c\x01H\x08f\x07\\\x08x\x03\x82\x01\x08\0\0\x03\x01\
\x01\x01\x02\0\0{\0\0\\\xfe\xff\xff\0\0\0\0l\xfe\xff\xff\0\0\0\0\
\0\0\0\0\0\0\0\0\0\0\0\0\0\0\0\0\0\0\0\0\0\0\0\0\
\0\0\0\0\0\0\0\0",
                lines: "  lsda 0x10454
  site 0x101f4 0x101fc pad 0x10208 action 1
  site 0x10234 0x1023c pad 0x10252 action 7
  site 0x10248 0x10250 pad 0x10264 action 3
  site 0x1026e 0x10276 pad 0x0 action 0
  action 1: 3 1 2
  action 3: 1 2
  action 7: 0 1 2
  type 1: 0x102e8
  type 2: 0x0
  type 3: 0x102d0
",
            },
        ),
        (
            "frame 0x1027a 0x102a4
  row 0x1027a cfa x2+0
  row 0x1027c cfa x2+16
  row 0x1027e cfa x2+16 x1=c-8
  row 0x102a0 cfa x2+16
  row 0x102a2 cfa x2+0
",
            Table {
                bytes: b"\xff\x1b)\x03\x1a\x04\0\0\0\x08\0\0\0\x0e\0\0\0\x01\x14\0\0\0\x10\0\
\0\0\0\0\0\0\0\x7f\0\0\0\0\x20\xfe\xff\xff\x04\xfe\xff\xff\x01\x02\0",
                lines: "  lsda 0x104a4
  site 0x1027e 0x10286 pad 0x10288 action 1
  site 0x1028e 0x1029e pad 0x0 action 0
  action 1: -1
  type 1: 0x102d0
  type 2: 0x102e8
  list -1: 1 2
",
            },
            Table {
                bytes: b"\xff\x1b\x15\x01\x08\x04\x08\x0e\x01\x14\x10\0\0\x7f\0\0\x34\xfe\xff\xff\x18\xfe\xff\xff\
\x01\x02\0\0\0\0\0\0\0\0\0\0\0\0\0\0\0\0\0\0\0\0\0",
                lines: "  lsda 0x104a4
  site 0x1027e 0x10286 pad 0x10288 action 1
  site 0x1028e 0x1029e pad 0x0 action 0
  action 1: -1
  type 1: 0x102d0
  type 2: 0x102e8
  list -1: 1 2
",
            },
        ),
    ],
    packed: 4,
    saved: 117,
};

// For any address; types stand behind words of their own, so that only the table without types is packed.
const INDEPENDENT: Produced = Produced {
    front: b"\x7fELF\x02\x01\x01\0\0\0\0\0\0\0\0\0\x03\0\xf3\0\x01\0\0\0\
\xa8\x02\0\0\0\0\0\0@\0\0\0\0\0\0\0\0\0\0\0\0\0\0\0\
\x05\0\0\0@\0\x38\0\x06\0\0\0\0\0\0\0\x01\0\0\0\x05\0\0\0\
\0\0\0\0\0\0\0\0\0\0\0\0\0\0\0\0\0\0\0\0\0\0\0\0\
S\x06\0\0\0\0\0\0S\x06\0\0\0\0\0\0@\0\0\0\0\0\0\0\
\x01\0\0\0\x06\0\0\0X\x06\0\0\0\0\0\0\x98\x06\0\0\0\0\0\0\
\x98\x06\0\0\0\0\0\0H\x01\0\0\0\0\0\0H\x01\0\0\0\0\0\0\
@\0\0\0\0\0\0\0\x02\0\0\0\x06\0\0\0\x80\x06\0\0\0\0\0\0\
\xc0\x06\0\0\0\0\0\0\xc0\x06\0\0\0\0\0\0\0\x01\0\0\0\0\0\0\
\0\x01\0\0\0\0\0\0\x08\0\0\0\0\0\0\0P\xe5td\x04\0\0\0\
p\x04\0\0\0\0\0\0p\x04\0\0\0\0\0\0p\x04\0\0\0\0\0\0\
,\0\0\0\0\0\0\0,\0\0\0\0\0\0\0\x04\0\0\0\0\0\0\0\
Q\xe5td\x06\0\0\0\0\0\0\0\0\0\0\0\0\0\0\0\0\0\0\0\
\0\0\0\0\0\0\0\0\0\0\0\0\0\0\0\0\0\0\0\0\0\0\0\0\
\x10\0\0\0\0\0\0\0R\xe5td\x04\0\0\0X\x06\0\0\0\0\0\0\
\x98\x06\0\0\0\0\0\0\x98\x06\0\0\0\0\0\0(\x01\0\0\0\0\0\0\
(\x01\0\0\0\0\0\0\x01\0\0\0\0\0\0\0\x01\0\0\0\x01\0\0\0\
\x01\0\0\0\0\0\0\0\0\0\0\0\0\0\0\0\0\0\0\0\0\0\0\0\
\0\0\0\0\0\0\0\0\0\0\0\0\0\0\0\0\0\0\0\0\0\0\0\0\
\0\0\0\0\x03\0\x05\0\xa8\x02\0\0\0\0\0\0\0\0\0\0\0\0\0\0\
\0\0\0\0\0\0\0\0\x98\x06\0\0\0\0\0\0\x03\0\0\0\0\0\0\0\
P\x04\0\0\0\0\0\0\xa0\x06\0\0\0\0\0\0\x03\0\0\0\0\0\0\0\
X\x04\0\0\0\0\0\0\xa8\x06\0\0\0\0\0\0\x03\0\0\0\0\0\0\0\
\xb0\x06\0\0\0\0\0\0\xb0\x06\0\0\0\0\0\0\x03\0\0\0\0\0\0\0\
P\x04\0\0\0\0\0\0\xb8\x06\0\0\0\0\0\0\x03\0\0\0\0\0\0\0\
h\x04\0\0\0\0\0\0\xc0\x07\0\0\0\0\0\0\x03\0\0\0\0\0\0\0\
\xb0\x06\0\0\0\0\0\0\xc8\x07\0\0\0\0\0\0\x03\0\0\0\0\0\0\0\
\x98\x06\0\0\0\0\0\0\xd0\x07\0\0\0\0\0\0\x03\0\0\0\0\0\0\0\
\xa8\x02\0\0\0\0\0\0\x82\x80yq\"\xf0&\xec\x06\xf4J\xe8*\x84\x8a\x84\
\x97\0\0\0\xe7\x80\0\xff\x1b\x05\x14\0\x13\x09\x81\0\x97\0\0\0\xe7\x80\0\xfe\
\x1b\x05$\0\x97\0\0\0\xe7\x80@\xfdJ\x85\x97\0\0\0\xe7\x80\xa0\xfc&\x85\
\x97\0\0\0\xe7\x80\0\xfc\xa2p\x02t\xe2dBiEa\x82\x80*\x84J\x85\
\x97\0\0\0\xe7\x80\x80\xfa&\x85\x97\0\0\0\xe7\x80\xe0\xf9\"\x85\x97\0\0\0\
\xe7\x80@\xf9*\x84\xed\xb7A\x11\"\xe0\x06\xe4*\x84\x97\0\0\0\xe7\x80\0\xf8\
\x1b\x05\x14\0\x97\0\0\0\xe7\x80@\xf7\x01E\xa2`\x02dA\x01\x82\x80\x85G\
c\x89\xf5\0\x89Gc\x80\xf5\x02\x97\0\0\0\xe7\x80`\xf5\x97\0\0\0\xe7\x80\
\xe0\xf4\x97\0\0\0\xe7\x80`\xf4\x05E\xc9\xbf\x97\0\0\0\xe7\x80\xa0\xf3\x97\0\
\0\0\xe7\x80\x20\xf3\x09E}\xbf\x01\x11\"\xe8\x06\xec*\x84\x97\0\0\0\xe7\x80\
\xe0\xf1\xa1\xa0\x01E\xe2`Bd\x05a\x82\x80\x0dGc\x8f\xe5\0\x85Gc\x9b\
\xf5\x04\x97\0\0\0\xe7\x80\xe0\xef\x97\0\0\0\xe7\x80`\xef\x05E\xe9\xbf\x97\0\
\0\0\xe7\x80\xa0\xee\x1b\x05\x14\0\x97\0\0\0\xe7\x80\xe0\xed\x97\0\0\0\xe7\x80\
`\xed\x1b\x05$\0\x97\0\0\0\xe7\x80\xa0\xec}\xb7*\xe4.\xe0\x97\0\0\0\
\xe7\x80\xc0\xeb\"e\x82eu\xb7m\xb7\x97\0\0\0\xe7\x80\xc0\xea\x97\0\0\0\
\xe7\x80@\xea\x09Ea\xb7A\x11\x06\xe4\x97\0\0\0\xe7\x80@\xe9!\xa8\xfdW\
c\x86\xf5\0\x97\0\0\0\xe7\x80@\xe8\x97\0\0\0\xe7\x80\xc0\xe7\xa2`A\x01\
\x82\x80\0\0\0\0\0\0\0\0\0\0\0\0\0\0\0\0\0\0\0\0\0\0\
\0\0\0\0\0\0\0\0\x37Derived\0\0\0\0\0\0\0\0\
4Base\0\0\0\x01\x1b\x03;,\0\0\0\x04\0\0\0:\xfe\xff\xff\
L\0\0\0\xb0\xfe\xff\xff|\0\0\0\x12\xff\xff\xff\xa4\0\0\0\xa0\xff\xff\xff\
\xcc\0\0\0\0\0\0\0\x18\0\0\0\0\0\0\0\x03zPLR\0\x01|\
\x01\x07\x9b\x1d\x03\0\0\x1b\x1b\x0d\x02\0,\0\0\0\x20\0\0\0\xe6\xfd\xff\xff\
v\0\0\0\x04\x93\0\0\0B\x0e0H\x88\x04\x89\x06\x81\x02\x92\x08~\x0a\xc1\
B\xc8B\xc9B\xd2B\x0e\0B\x0b\0$\0\0\0P\0\0\0,\xfe\xff\xff\
b\0\0\0\x04\xab\0\0\0B\x0e\x10D\x88\x04\x81\x02Z\x0a\xc1B\xc8B\x0e\
\0B\x0b\0$\0\0\0x\0\0\0f\xfe\xff\xff\x8e\0\0\0\x04\xaf\0\0\
\0B\x0e\x20D\x88\x04\x81\x02P\x0a\xc1B\xc8B\x0e\0B\x0b\0\x1c\0\0\0\
\xa0\0\0\0\xcc\xfe\xff\xff*\0\0\0\x04\xd7\0\0\0B\x0e\x10B\x81\x02b\
\xc1B\x0e\0\0\0\0\0",
    back: b"\0\0\0\0\0\0\0\0\0\0\0\0\0\0\0\0\0\0\0\0\0\0\0\0\
\0\0\0\0\0\0\0\0\0\0\0\0\0\0\0\0\0\0\0\0\0\xf5\xfe\xff\
o\0\0\0\0\x90\x01\0\0\0\0\0\0\x05\0\0\0\0\0\0\0\xe0\x01\0\
\0\0\0\0\0\x06\0\0\0\0\0\0\0\xb0\x01\0\0\0\0\0\0\x0a\0\0\
\0\0\0\0\0\x01\0\0\0\0\0\0\0\x0b\0\0\0\0\0\0\0\x18\0\0\
\0\0\0\0\0\x15\0\0\0\0\0\0\0\0\0\0\0\0\0\0\0\x07\0\0\
\0\0\0\0\0\xe8\x01\0\0\0\0\0\0\x08\0\0\0\0\0\0\0\xc0\0\0\
\0\0\0\0\0\x09\0\0\0\0\0\0\0\x18\0\0\0\0\0\0\0\xfb\xff\xff\
o\0\0\0\0\0\0\0\x08\0\0\0\0\xf9\xff\xffo\0\0\0\0\x08\0\0\
\0\0\0\0\0\0\0\0\0\0\0\0\0\0\0\0\0\0\0\0\0\0\0\0\
\0\0\0\0\0\0\0\0\0\0\0\0\0\0\0\0\0\0\0\0\0\0\0\0\
\0\0\0\0\0\0\0\0\0\0\0\0\0\0\0\0\0\0\0\0\0\0\0\0\
\0\0\0\0\0\0\0\0\0\0\0\0\0\0\0\0\0\0\0\0\0\0\0\0\
\0\0\0\0\0\0\0\0\0\0\0\0\0\xc0\x06\0\0\0\0\0\0",
    head: "image entry 0x2a8
segment 0x0 0x653 r-x
segment 0x698 0x7e0 rw-
cie 0x4a0 version 3 aug zPLR code 1 data -4 ra x1
",
    tables: &[
        (
            "frame 0x2aa 0x320
  row 0x2aa cfa x2+0
  row 0x2ac cfa x2+48
  row 0x2b4 cfa x2+48 x1=c-8 x8=c-16 x9=c-24 x18=c-32
  row 0x2f2 cfa x2+48 x8=c-16 x9=c-24 x18=c-32
  row 0x2f4 cfa x2+48 x9=c-24 x18=c-32
  row 0x2f6 cfa x2+48 x18=c-32
  row 0x2f8 cfa x2+48
  row 0x2fa cfa x2+0
  row 0x2fc cfa x2+48 x1=c-8 x8=c-16 x9=c-24 x18=c-32
",
            Table {
                bytes: b"\xff\xff\x03A\x0e\0\0\0\x08\0\0\0r\0\0\0\0\x1e\0\0\0\x14\0\0\
\0R\0\0\0\0\x34\0\0\0\x08\0\0\0r\0\0\0\0>\0\0\0\x08\
\0\0\0\0\0\0\0\0j\0\0\0\x08\0\0\0\0\0\0\0\0\0\0\0",
                lines: "  lsda 0x560
  site 0x2b8 0x2c0 pad 0x31c action 0
  site 0x2c8 0x2dc pad 0x2fc action 0
  site 0x2de 0x2e6 pad 0x31c action 0
  site 0x2e8 0x2f0 pad 0x0 action 0
  site 0x314 0x31c pad 0x0 action 0
",
            },
            Table {
                bytes: b"\xff\xff\x01\x14\x0e\x08r\0\x1e\x14R\0\x34\x08r\0>\x08\0\0j\x08\0\0\
\0\0\0\0\0\0\0\0\0\0\0\0\0\0\0\0\0\0\0\0\0\0\0\0\
\0\0\0\0\0\0\0\0\0\0\0\0\0\0\0\0\0\0\0\0\0\0\0\0",
                lines: "  lsda 0x560
  site 0x2b8 0x2c0 pad 0x31c action 0
  site 0x2c8 0x2dc pad 0x2fc action 0
  site 0x2de 0x2e6 pad 0x31c action 0
  site 0x2e8 0x2f0 pad 0x0 action 0
  site 0x314 0x31c pad 0x0 action 0
",
            },
        ),
        (
            "frame 0x320 0x382
  row 0x320 cfa x2+0
  row 0x322 cfa x2+16
  row 0x326 cfa x2+16 x1=c-8 x8=c-16
  row 0x340 cfa x2+16 x8=c-16
  row 0x342 cfa x2+16
  row 0x344 cfa x2+0
  row 0x346 cfa x2+16 x1=c-8 x8=c-16
",
            Table {
                bytes: b"\xff\x9b)\x03\x1a\x08\0\0\0\x14\0\0\0&\0\0\0\x032\0\0\0\x08\0\
\0\0\0\0\0\0\0\x02\0\x01}\0\xf4\x01\0\0\xf8\x01\0\0",
                lines: "  lsda 0x5a8
  site 0x328 0x33c pad 0x346 action 3
  site 0x352 0x35a pad 0x0 action 0
  action 3: 1 2
  type 1: 0x0
  type 2: 0x0
",
            },
            Table {
                bytes: b"\xff\x9b)\x03\x1a\x08\0\0\0\x14\0\0\0&\0\0\0\x032\0\0\0\x08\0\
\0\0\0\0\0\0\0\x02\0\x01}\0\xf4\x01\0\0\xf8\x01\0\0",
                lines: "  lsda 0x5a8
  site 0x328 0x33c pad 0x346 action 3
  site 0x352 0x35a pad 0x0 action 0
  action 3: 1 2
  type 1: 0x0
  type 2: 0x0
",
            },
        ),
        (
            "frame 0x382 0x410
  row 0x382 cfa x2+0
  row 0x384 cfa x2+32
  row 0x388 cfa x2+32 x1=c-8 x8=c-16
  row 0x398 cfa x2+32 x8=c-16
  row 0x39a cfa x2+32
  row 0x39c cfa x2+0
  row 0x39e cfa x2+32 x1=c-8 x8=c-16
",
            Table {
                bytes: b"\xff\x9bM\x034\x08\0\0\0\x08\0\0\0\x1c\0\0\0\x05H\0\0\0\x08\0\
\0\0f\0\0\0\x07\\\0\0\0\x08\0\0\0x\0\0\0\x03\x82\0\0\0\
\x08\0\0\0\0\0\0\0\0\x02\0\x01}\x03}\0{\0\0\0\xb0\x01\0\0\
\0\0\0\0\xa0\x01\0\0",
                lines: "  lsda 0x5d4
  site 0x38a 0x392 pad 0x39e action 5
  site 0x3ca 0x3d2 pad 0x3e8 action 7
  site 0x3de 0x3e6 pad 0x3fa action 3
  site 0x404 0x40c pad 0x0 action 0
  action 3: 1 2
  action 5: 3 1 2
  action 7: 0 1 2
  type 1: 0x0
  type 2: 0x0
  type 3: 0x0
",
            },
            Table {
                bytes: b"\xff\x9bM\x034\x08\0\0\0\x08\0\0\0\x1c\0\0\0\x05H\0\0\0\x08\0\
\0\0f\0\0\0\x07\\\0\0\0\x08\0\0\0x\0\0\0\x03\x82\0\0\0\
\x08\0\0\0\0\0\0\0\0\x02\0\x01}\x03}\0{\0\0\0\xb0\x01\0\0\
\0\0\0\0\xa0\x01\0\0",
                lines: "  lsda 0x5d4
  site 0x38a 0x392 pad 0x39e action 5
  site 0x3ca 0x3d2 pad 0x3e8 action 7
  site 0x3de 0x3e6 pad 0x3fa action 3
  site 0x404 0x40c pad 0x0 action 0
  action 3: 1 2
  action 5: 3 1 2
  action 7: 0 1 2
  type 1: 0x0
  type 2: 0x0
  type 3: 0x0
",
            },
        ),
        (
            "frame 0x410 0x43a
  row 0x410 cfa x2+0
  row 0x412 cfa x2+16
  row 0x414 cfa x2+16 x1=c-8
  row 0x436 cfa x2+16
  row 0x438 cfa x2+0
",
            Table {
                bytes: b"\xff\x9b)\x03\x1a\x04\0\0\0\x08\0\0\0\x0e\0\0\0\x01\x14\0\0\0\x10\0\
\0\0\0\0\0\0\0\x7f\0\0\0\0x\x01\0\0|\x01\0\0\x01\x02\0",
                lines: "  lsda 0x624
  site 0x414 0x41c pad 0x41e action 1
  site 0x424 0x434 pad 0x0 action 0
  action 1: -1
  type 1: 0x0
  type 2: 0x0
  list -1: 1 2
",
            },
            Table {
                bytes: b"\xff\x9b)\x03\x1a\x04\0\0\0\x08\0\0\0\x0e\0\0\0\x01\x14\0\0\0\x10\0\
\0\0\0\0\0\0\0\x7f\0\0\0\0x\x01\0\0|\x01\0\0\x01\x02\0",
                lines: "  lsda 0x624
  site 0x414 0x41c pad 0x41e action 1
  site 0x424 0x434 pad 0x0 action 0
  action 1: -1
  type 1: 0x0
  type 2: 0x0
  list -1: 1 2
",
            },
        ),
    ],
    packed: 1,
    saved: 45,
};

/// Both images.
pub static IMAGES: [Produced; 2] = [FIXED, INDEPENDENT];
