//! Which value of the command line is wrong.
ghost use Rattle.std.specs.Prelude.{◌≡◌};
ghost use Rattle.mdbal_ceph.specs.WrongValues.{option_text, wrong_text};

/// An option that takes some values only.
#[derive(Clone, Copy)]
pub enum ValueOption {
    /// The ranks that may have a part.
    Mask,
    /// The most pins that `auto` tries.
    MostPins,
    /// Into how many parts the directories are divided.
    Parts,
    /// By how many percent the hottest rank may pass that of the coolest plan.
    Keep,
    /// How many hours are chosen.
    Hours,
    /// How many hours are made.
    Made,
    /// The most inodes that move.
    MostInodes,
    /// The least heat of the hottest rank.
    LeastHeat,
    /// The least percentage by which it gets cooler.
    LeastGain,
    /// The least heat by which it gets cooler for each thousand inodes.
    LeastByInodes,
    /// Where the file system is mounted.
    Mount,
}

/// What is wrong with a value.
#[derive(Clone, Copy)]
pub enum WrongValue {
    /// This option takes no such value.
    Of(ValueOption),
    /// There is no folder.
    NoFolder,
    /// The folder of now has no name.
    EmptyFolder,
}

impl ValueOption {
    /// The option, and what it takes.
    fn text(self) -> &'static str
        ensures { result.now ≡ option_text self }
    {
        match self {
            ValueOption::Mask => {
                "--mask takes all, -1 as in --mask=-1, or 1 to 16 hexadecimal digits"
            }
            ValueOption::MostPins => "--most-pins takes a number from 1 to 65535",
            ValueOption::Parts => "--parts takes auto, or a number from 1 to 65535",
            ValueOption::Keep => {
                "--keep takes a whole number from 0 to 255, without a percent sign"
            }
            ValueOption::Hours => "--hours takes a number from 1 to 32",
            ValueOption::Made => "--made takes a number from 0 to 31",
            ValueOption::MostInodes => "--most-inodes takes a whole number",
            ValueOption::LeastHeat => "--least-heat takes a whole number",
            ValueOption::LeastGain => {
                "--least-gain takes a whole number from 0 to 255, without a percent sign"
            }
            ValueOption::LeastByInodes => "--least-by-inodes takes a whole number",
            ValueOption::Mount => "--mount takes an absolute path",
        }
    }
}

impl WrongValue {
    /// What is said of it.
    pub(crate) fn text(self) -> &'static str
        ensures { result.now ≡ wrong_text self }
    {
        match self {
            WrongValue::Of(option) => option.text(),
            WrongValue::NoFolder => "a DIR is missing",
            WrongValue::EmptyFolder => "a DIR is empty",
        }
    }
}
