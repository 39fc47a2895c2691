// The format of skeleton and joint sections: refusals, the sizes of records, the widths and words of the rows of lent tables, constants,
// and floats as words. What each call means stands in `specs/`.
#![tactic(auto)]

ghost use Rattle.std.specs.Prelude.{◌≡◌};
ghost use Rattle.format.specs.Refusal.{number};

// ---- addresses: the lower 28 bits are the offset in one of the two halves of a section

pub const SYSTEM_BASE: u64 = 0x5000_0000;

pub const GRAPHICS_BASE: u64 = 0x6000_0000;

// ---- records: their sizes in bytes

pub const SKELETON_SIZE: usize = 112;

pub const BLOCK_HEADER_SIZE: usize = 16;

pub const BONE_SIZE: usize = 80;

pub const ENTRY_SIZE: usize = 16;

// the bytes of a pointer
pub const POINTER: usize = 8;

pub const MATRIX_SIZE: usize = 64;

pub const JOINTS_SIZE: usize = 64;

pub const ROTATION_LIMIT_SIZE: usize = 192;

pub const TRANSLATION_LIMIT_SIZE: usize = 64;

// ---- records: the bytes that must stand for the fields read; what lies behind the last field need not

pub const SKELETON_READ: usize = 98;

pub const BONE_READ: usize = 70;

pub const JOINTS_READ: usize = 52;

// ---- rows of the lent tables: their widths in words (`specs/Rows.antt`); a bucket, a parent and a child entry are one word each

pub const BONE_WORDS: usize = 21;

pub const ENTRY_WORDS: usize = 3;

pub const MATRIX_WORDS: usize = 16;

// of a pool of 64-bit words
pub const POOL_WORDS: usize = 4;

// of the pending list
pub const PENDING_WORDS: usize = 2;

pub const ROTATION_LIMIT_WORDS: usize = 49;

pub const TRANSLATION_LIMIT_WORDS: usize = 16;

// ---- the words of a bone's row; where two fields share a word, the first is its lower half

pub const ROTATION_X: usize = 0;

pub const ROTATION_Y: usize = 1;

pub const ROTATION_Z: usize = 2;

pub const ROTATION_W: usize = 3;

pub const TRANSLATION_X: usize = 4;

pub const TRANSLATION_Y: usize = 5;

pub const TRANSLATION_Z: usize = 6;

pub const SCALE_X: usize = 7;

pub const SCALE_Y: usize = 8;

pub const SCALE_Z: usize = 9;

pub const SIBLING_AND_PARENT: usize = 10;

pub const FLAGS_AND_INDEX: usize = 11;

// beside it a free half
pub const TAG: usize = 12;

// the four kept words start here
pub const KEPT_X: usize = 13;

// two words, the lower first
pub const NAME_ADDRESS: usize = 17;

pub const NAME_ADDRESS_UPPER: usize = 18;

pub const NAME_SIZE: usize = 19;

pub const NAME_SIZE_UPPER: usize = 20;

// ---- the words of an entry's row

pub const ENTRY_TAG: usize = 0;

pub const ENTRY_POSITION: usize = 1;

pub const ENTRY_LINK: usize = 2;

// ---- the words of a limit's row

pub const LIMIT_ID: usize = 0;

// three words each
pub const LIMIT_LEAST: usize = 1;

pub const LIMIT_GREATEST: usize = 4;

// the slots of the record that no field names, 41 or 9
pub const LIMIT_OTHER: usize = 7;

// of a rotation limit: the second 16-bit number; beside it a free half
pub const ROTATION_SECOND: usize = 48;

// ---- the words of column 4 of a matrix

pub const COLUMN4_X: usize = 3;

pub const COLUMN4_Y: usize = 7;

pub const COLUMN4_Z: usize = 11;

pub const COLUMN4_W: usize = 15;

// ---- the kind words that our writer stores

pub const SKELETON_KIND: u32 = 1080114336;

pub const JOINTS_KIND: u32 = 1080130656;

// ---- limits

// the most bones, child entries or limits that a 16-bit count holds
pub const MOST: usize = 65535;

// the greatest id that the record of a rotation limit has room for
pub const GREATEST_ROTATION_ID: u32 = 65535;

// the longest name that our writer takes, in bytes
pub const LONGEST_NAME: usize = 255;

// three floats as their words
#[derive(Clone, Copy, Debug, PartialEq, Eq)]
pub struct Words3 {
    pub x: u32,
    pub y: u32,
    pub z: u32,
}

// four floats as their words
#[derive(Clone, Copy, Debug, PartialEq, Eq)]
pub struct Words4 {
    pub x: u32,
    pub y: u32,
    pub z: u32,
    pub w: u32,
}

// Where a name lies: its address and its length in bytes. Where a row holds one, address 0 is no name. (No Option: the pool, a
// bone and a row pass both words on; what the name is for asks.)
#[derive(Clone, Copy, Debug, PartialEq, Eq)]
pub struct Place {
    pub address: u64,
    pub size: u64,
}

// Why a call refuses, by its number. The comment tells who causes it, and when (docs/FORMAT.md, "Who can cause a refusal").
#[derive(Clone, Copy, Debug, PartialEq, Eq)]
pub enum Refusal {
    // the caller: a lent table is too short.
    TableTooShort = 1,
    // whoever made the bones: more than 65,535 of them.
    TooManyBones = 2,
    // whoever made the bones: more than 65,535 child entries, in writing only.
    TooManyChildren = 3,
    // whoever made the bones: a name over 255 bytes, holding a zero byte or not lying in the lent name bytes, in writing only.
    BadName = 4,
    // the caller: the output buffer is shorter than the section or the record to write.
    BufferTooShort = 5,
    // whoever made the limits: more than 65,535 in either list.
    TooManyLimits = 6,
    // whoever wrote the section: an address not 0 that is in neither half.
    BadAddress = 10,
    // whoever wrote the section: an address past its half's end, or fields or an array running past it.
    PastTheEnd = 11,
    // whoever wrote the section: an address already read as another kind.
    OtherKind = 12,
    // whoever wrote the section: a bones pointer from 1 to 15.
    BonesPointer = 13,
    // whoever wrote the section, lookup only: a chain too long.
    ChainTooLong = 14,
    // whoever derived the tables, check only: the chains.
    Chains = 21,
    // likewise: the parents.
    Parents = 22,
    // likewise: the children.
    Children = 23,
    // likewise: the inverse matrices.
    Inverse = 24,
    // likewise: the local matrices.
    Local = 25,
    // whoever made the limits: the id of a rotation limit is above 65,535, in writing only.
    BadLimitId = 35,
}

// The number of the refusal, in every list of them.
impl From<Refusal> for u32 {
    ghost from_gives = { λ r n. n ≡ number r };

    fn from(r: Refusal) -> u32 {
        r as u32
    }
}
