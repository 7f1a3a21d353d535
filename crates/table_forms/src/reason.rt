// Why a table or an image is refused.
ghost use Rattle.std.specs.Prelude.{◌≡◌};
ghost use Rattle.table_forms.specs.Numbered.{number_of};

/// Why a table or an image is refused.
#[derive(Clone, Copy, Drop, Debug, PartialEq, Eq)]
pub enum Reason {
    /// An exception table ends inside a field, or no segment holds it.
    TableTruncated,
    /// A LEB128 is out of range, or an offset that is computed from one.
    LebRange,
    /// A pointer encoding that is not known, or not allowed where it stands.
    Encoding,
    /// A call site begins before the end of the one before.
    SiteOrder,
    /// A call site ends past its region.
    SiteOutside,
    /// A landing pad lies in no executable segment.
    PadOutside,
    /// A record of a chain lies outside the action table.
    ActionOutside,
    /// A chain of actions meets a record twice.
    ActionLoop,
    /// A type entry would begin before the action table.
    FilterOutside,
    /// The list of an exception specification has no end in its segment.
    SpecificationOpen,
    /// A filter other than 0 in a table without types.
    NoTypes,
    /// The frames, their header or one of their parts end early.
    FrameTruncated,
    /// An unknown version of a header or of a common information entry.
    Version,
    /// An unknown letter of an augmentation.
    Augmentation,
    /// The distance of a frame description leads to no common information entry.
    CieLink,
    /// An unknown call frame instruction.
    UnknownInstruction,
    /// A call frame instruction that has an expression.
    Expression,
    /// A state is restored that was not remembered, or too many are remembered.
    StateStack,
    /// The regions of two frame descriptions overlap.
    Overlap,
    /// A register above 63.
    RegisterRange,
    /// The header's table is not the sorted list of the frame descriptions.
    HeaderDisagrees,
    /// The file does not begin as an ELF file does.
    Magic,
    /// The ELF file is not of 64 bits, least byte first.
    Class,
    /// The ELF file is not for RISC-V.
    Machine,
    /// Another field of the ELF header is not as asked, or the program headers leave the file.
    FileHeader,
    /// A segment leaves the file or the addresses that it may have.
    SegmentRange,
    /// Two segments overlap.
    SegmentOverlap,
    /// No segment holds the header of the frames, or to run it has no table.
    NoFrames,
    /// To run: there is no header of the runtime's record.
    NoRuntime,
    /// The runtime's record is not as asked.
    Runtime,
    /// To run: a table may be written.
    TableWritable,
    /// The bytes of an exception table have another use too.
    TableShared,
    /// Two segments overlap in the file.
    FileShared,
    /// No section has the frames for debuggers.
    NoDebugFrames,
    /// The section headers or a section that is needed leave the file, or a name has no end.
    SectionHeader,
    /// The section is compressed.
    Compressed,
    /// Addresses of other than eight bytes, or with segment selectors.
    AddressSize,
}

impl Reason {
    /// The number under which a refusal is reported.
    pub fn number(self) -> u8
        ensures { result ≡ number_of self }
    {
        match self {
            Reason::TableTruncated => 1,
            Reason::LebRange => 2,
            Reason::Encoding => 3,
            Reason::SiteOrder => 4,
            Reason::SiteOutside => 5,
            Reason::PadOutside => 6,
            Reason::ActionOutside => 7,
            Reason::ActionLoop => 8,
            Reason::FilterOutside => 9,
            Reason::SpecificationOpen => 14,
            Reason::NoTypes => 15,
            Reason::FrameTruncated => 50,
            Reason::Version => 51,
            Reason::Augmentation => 52,
            Reason::CieLink => 53,
            Reason::UnknownInstruction => 54,
            Reason::Expression => 55,
            Reason::StateStack => 56,
            Reason::Overlap => 57,
            Reason::RegisterRange => 58,
            Reason::HeaderDisagrees => 59,
            Reason::Magic => 60,
            Reason::Class => 61,
            Reason::Machine => 62,
            Reason::FileHeader => 63,
            Reason::SegmentRange => 64,
            Reason::SegmentOverlap => 65,
            Reason::NoFrames => 66,
            Reason::NoRuntime => 67,
            Reason::Runtime => 68,
            Reason::TableWritable => 69,
            Reason::TableShared => 83,
            Reason::FileShared => 84,
            Reason::NoDebugFrames => 85,
            Reason::SectionHeader => 86,
            Reason::Compressed => 87,
            Reason::AddressSize => 88,
        }
    }
}
