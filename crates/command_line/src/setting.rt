// The options of the command line.
ghost use Rattle.std.specs.Prelude.{◌≡◌};
ghost use Rattle.command_line.specs.Setting.{name_of, value_count};

/// An option of the command line.
#[derive(Clone, Copy, Debug, PartialEq, Eq)]
pub enum Setting {
    /// The file that is a program's input.
    Input,
    /// The most turns or steps.
    Max,
    /// Whether events are printed.
    Trace,
    /// Whether steps are counted.
    Count,
    /// The standard by which a source is judged.
    Standard,
    /// What a module replies.
    Foreign,
    /// What comes by the frames of an image.
    Thrown,
}

impl Setting {
    /// Its name, without the dashes.
    pub fn name<'a>(self) -> &'a str
        ensures { result.now ≡ name_of self }
    {
        match self {
            Setting::Input => "in",
            Setting::Max => "max",
            Setting::Trace => "trace",
            Setting::Count => "count",
            Setting::Standard => "std",
            Setting::Foreign => "foreign",
            Setting::Thrown => "type",
        }
    }

    /// How many values a use of it has: one, or none where it is a switch.
    pub fn value_count(self) -> usize
        ensures { result ≡ value_count self }
    {
        match self {
            Setting::Input
            | Setting::Max
            | Setting::Standard
            | Setting::Foreign
            | Setting::Thrown => 1,
            Setting::Trace | Setting::Count => 0,
        }
    }
}
