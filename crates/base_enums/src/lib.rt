// The enums of a header, each with the number of every variant and the variant of every number.
#![tactic(auto)]

ghost use Rattle.std.specs.Prelude.{◌≡◌};
ghost use Rattle.base_enums.specs.InterpolationFilter.{filter_number, filter_numbered, filter_of_literal};
ghost use Rattle.base_enums.specs.ReferenceFrameType.{reference_number, reference_numbered};
ghost use Rattle.base_enums.specs.FrameType.{frame_type_number, frame_type_numbered};
ghost use Rattle.base_enums.specs.Profile.{profile_number, profile_numbered, profile_of};
ghost use Rattle.base_enums.specs.BitDepth.{depth_number, depth_numbered};
ghost use Rattle.base_enums.specs.ColorSpace.{color_space_number, color_space_numbered, color_space_of};
ghost use Rattle.base_enums.specs.ColorRange.{color_range_number, color_range_numbered, color_range_of};
ghost use Rattle.base_enums.specs.SegLvl.{seg_lvl_number};

// A number that no variant has.
#[derive(Clone, Copy, Debug, PartialEq, Eq)]
pub struct UnknownNumber;

// How a block is predicted between two pixels.
#[derive(Clone, Copy, Debug, PartialEq, Eq)]
pub enum InterpolationFilter {
    EightTap = 0,
    EightTapSmooth = 1,
    EightTapSharp = 2,
    Bilinear = 3,
    Switchable = 4,
}

impl From<InterpolationFilter> for u32 {
    ghost from_gives = { λ x n. n ≡ filter_number x };

    fn from(filter: InterpolationFilter) -> u32 {
        filter as u32
    }
}

impl TryFrom<u32> for InterpolationFilter {
    type Error = UnknownNumber;

    ghost try_from_gives = { λ n r. r ≡ filter_numbered n };

    fn try_from(value: u32) -> Result<Self, UnknownNumber> {
        match value {
            0 => Ok(InterpolationFilter::EightTap),
            1 => Ok(InterpolationFilter::EightTapSmooth),
            2 => Ok(InterpolationFilter::EightTapSharp),
            3 => Ok(InterpolationFilter::Bilinear),
            4 => Ok(InterpolationFilter::Switchable),
            _ => Err(UnknownNumber),
        }
    }
}

impl InterpolationFilter {
    // The two bits raw_interpolation_filter, whose order is its own. A larger number is read as the last.
    pub fn of_two_bits(n: u32) -> Self
        ensures { result ≡ filter_of_literal n }
    {
        match n {
            0 => InterpolationFilter::EightTapSmooth,
            1 => InterpolationFilter::EightTap,
            2 => InterpolationFilter::EightTapSharp,
            _ => InterpolationFilter::Bilinear,
        }
    }
}

// What a block is predicted from.
#[derive(Clone, Copy, Debug, PartialEq, Eq)]
pub enum ReferenceFrameType {
    Intra = 0,
    Last = 1,
    Golden = 2,
    AltRef = 3,
}

impl From<ReferenceFrameType> for u32 {
    ghost from_gives = { λ x n. n ≡ reference_number x };

    fn from(reference: ReferenceFrameType) -> u32 {
        reference as u32
    }
}

impl TryFrom<u32> for ReferenceFrameType {
    type Error = UnknownNumber;

    ghost try_from_gives = { λ n r. r ≡ reference_numbered n };

    fn try_from(value: u32) -> Result<Self, UnknownNumber> {
        match value {
            0 => Ok(ReferenceFrameType::Intra),
            1 => Ok(ReferenceFrameType::Last),
            2 => Ok(ReferenceFrameType::Golden),
            3 => Ok(ReferenceFrameType::AltRef),
            _ => Err(UnknownNumber),
        }
    }
}

// A key frame needs no frame before it.
#[derive(Clone, Copy, Debug, PartialEq, Eq)]
pub enum FrameType {
    KeyFrame = 0,
    InterFrame = 1,
}

impl From<FrameType> for u8 {
    ghost from_gives = { λ x n. n ≡ frame_type_number x };

    fn from(frame_type: FrameType) -> u8 {
        frame_type as u8
    }
}

impl TryFrom<u8> for FrameType {
    type Error = UnknownNumber;

    ghost try_from_gives = { λ n r. r ≡ frame_type_numbered n };

    fn try_from(value: u8) -> Result<Self, UnknownNumber> {
        match value {
            0 => Ok(FrameType::KeyFrame),
            1 => Ok(FrameType::InterFrame),
            _ => Err(UnknownNumber),
        }
    }
}

// Profiles 1 and 3 choose the subsampling, 2 and 3 the depth.
#[derive(Clone, Copy, Debug, PartialEq, Eq)]
pub enum Profile {
    Profile0 = 0,
    Profile1 = 1,
    Profile2 = 2,
    Profile3 = 3,
}

impl From<Profile> for u32 {
    ghost from_gives = { λ x n. n ≡ profile_number x };

    fn from(profile: Profile) -> u32 {
        profile as u32
    }
}

impl TryFrom<u32> for Profile {
    type Error = UnknownNumber;

    ghost try_from_gives = { λ n r. r ≡ profile_numbered n };

    fn try_from(value: u32) -> Result<Self, UnknownNumber> {
        match value {
            0 => Ok(Profile::Profile0),
            1 => Ok(Profile::Profile1),
            2 => Ok(Profile::Profile2),
            3 => Ok(Profile::Profile3),
            _ => Err(UnknownNumber),
        }
    }
}

impl Profile {
    // The two profile bits, the high bit worth 2. A larger number is read as the last.
    pub fn of_two_bits(n: u32) -> Self
        ensures { result ≡ profile_of n }
    {
        match n {
            0 => Profile::Profile0,
            1 => Profile::Profile1,
            2 => Profile::Profile2,
            _ => Profile::Profile3,
        }
    }
}

// Bits in a sample.
#[derive(Clone, Copy, Debug, PartialEq, Eq)]
pub enum BitDepth {
    Depth8 = 8,
    Depth10 = 10,
    Depth12 = 12,
}

impl From<BitDepth> for u32 {
    ghost from_gives = { λ x n. n ≡ depth_number x };

    fn from(depth: BitDepth) -> u32 {
        depth as u32
    }
}

impl TryFrom<u32> for BitDepth {
    type Error = UnknownNumber;

    ghost try_from_gives = { λ n r. r ≡ depth_numbered n };

    fn try_from(value: u32) -> Result<Self, UnknownNumber> {
        match value {
            8 => Ok(BitDepth::Depth8),
            10 => Ok(BitDepth::Depth10),
            12 => Ok(BitDepth::Depth12),
            _ => Err(UnknownNumber),
        }
    }
}

// The colour space by VP9's three-bit number.
#[derive(Clone, Copy, Debug, PartialEq, Eq)]
pub enum ColorSpace {
    Unknown = 0,
    Bt601 = 1,
    Bt709 = 2,
    Smpte170 = 3,
    Smpte240 = 4,
    Bt2020 = 5,
    Reserved2 = 6,
    CsSrgb = 7,
}

impl From<ColorSpace> for u32 {
    ghost from_gives = { λ x n. n ≡ color_space_number x };

    fn from(space: ColorSpace) -> u32 {
        space as u32
    }
}

impl TryFrom<u32> for ColorSpace {
    type Error = UnknownNumber;

    ghost try_from_gives = { λ n r. r ≡ color_space_numbered n };

    fn try_from(value: u32) -> Result<Self, UnknownNumber> {
        match value {
            0 => Ok(ColorSpace::Unknown),
            1 => Ok(ColorSpace::Bt601),
            2 => Ok(ColorSpace::Bt709),
            3 => Ok(ColorSpace::Smpte170),
            4 => Ok(ColorSpace::Smpte240),
            5 => Ok(ColorSpace::Bt2020),
            6 => Ok(ColorSpace::Reserved2),
            7 => Ok(ColorSpace::CsSrgb),
            _ => Err(UnknownNumber),
        }
    }
}

impl ColorSpace {
    // The three bits color_space. A larger number is read as the last.
    pub fn of_three_bits(n: u32) -> Self
        ensures { result ≡ color_space_of n }
    {
        match n {
            0 => ColorSpace::Unknown,
            1 => ColorSpace::Bt601,
            2 => ColorSpace::Bt709,
            3 => ColorSpace::Smpte170,
            4 => ColorSpace::Smpte240,
            5 => ColorSpace::Bt2020,
            6 => ColorSpace::Reserved2,
            _ => ColorSpace::CsSrgb,
        }
    }
}

// Whether samples leave head room.
#[derive(Clone, Copy, Debug, PartialEq, Eq)]
pub enum ColorRange {
    StudioSwing = 0,
    FullSwing = 1,
}

impl From<ColorRange> for u32 {
    ghost from_gives = { λ x n. n ≡ color_range_number x };

    fn from(range: ColorRange) -> u32 {
        range as u32
    }
}

impl TryFrom<u32> for ColorRange {
    type Error = UnknownNumber;

    ghost try_from_gives = { λ n r. r ≡ color_range_numbered n };

    fn try_from(value: u32) -> Result<Self, UnknownNumber> {
        match value {
            0 => Ok(ColorRange::StudioSwing),
            1 => Ok(ColorRange::FullSwing),
            _ => Err(UnknownNumber),
        }
    }
}

impl ColorRange {
    // The bit color_range. A larger number is read as the last.
    pub fn of_bit(n: u32) -> Self
        ensures { result ≡ color_range_of n }
    {
        match n {
            0 => ColorRange::StudioSwing,
            _ => ColorRange::FullSwing,
        }
    }
}

// A segment's features, in the order in which they are read.
#[derive(Clone, Copy, Debug, PartialEq, Eq)]
pub enum SegLvl {
    AltQ = 0,
    AltL = 1,
    RefFrame = 2,
    LvlSkip = 3,
}

impl From<SegLvl> for u32 {
    ghost from_gives = { λ x n. n ≡ seg_lvl_number x };

    fn from(feature: SegLvl) -> u32 {
        feature as u32
    }
}
