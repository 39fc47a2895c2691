// The bones block: its count, then the bones' records of 80 bytes, each one array of words (docs/FORMAT.md, "Records").
ghost use Rattle.std.specs.Prelude.{◌≡◌, ◌+◌, ◌≤◌, length, map};
ghost use Rattle.std.proofs.lemmas.List.Edits.{sets};
ghost use Rattle.format.specs.Field.{lay};
ghost use Rattle.format.specs.Layout.{base, bone_items, pad16};
ghost use Rattle.format.specs.Rows.{bone_of};
ghost use Rattle.write.specs.Records.{ShortName, takes, bone_record, records, block, BonesRoom, BlockRoom};

use crate::starts::pointer;
use crate::words::put_run;
use format::BONE_WORDS;
use rows::name_at;

// The bytes that a row's name takes, its zero among them: none for no name.
pub(crate) fn name_bytes(row: &[u32; BONE_WORDS]) -> usize
    requires { ShortName row.now }
    ensures answer { result ≡ takes (bone_of row.now).name }
{
    let name = name_at(row, 0);
    if name.address == 0 {
        return 0;
    }
    name.size as usize + 1
}

// The words of a row's record, with the address of its name.
#[tactic(auto, unfolding(crate::specs::Records::bone_record))]
fn bone_record(row: &[u32; BONE_WORDS], name: u32) -> [u32; 20]
    ensures answer { result ≡ bone_record row.now name }
{
    let marks = row[format::FLAGS_AND_INDEX];
    let tags = row[format::TAG] % 65536 + marks / 65536 * 65536;
    [
        row[format::ROTATION_X],
        row[format::ROTATION_Y],
        row[format::ROTATION_Z],
        row[format::ROTATION_W],
        row[format::TRANSLATION_X],
        row[format::TRANSLATION_Y],
        row[format::TRANSLATION_Z],
        0,
        row[format::SCALE_X],
        row[format::SCALE_Y],
        row[format::SCALE_Z],
        0x3F80_0000,
        row[format::SIBLING_AND_PARENT],
        0,
        name,
        0,
        marks,
        tags,
        0,
        0,
    ]
}

// Stores a row's record.
fn put_bone(d: &mut [u8], at: usize, row: &[u32; BONE_WORDS], name: u32)
    requires { at + 80 ≤ length d.old }
    ensures bytes { d.new ≡ sets d.old at (lay (bone_items (bone_of row.now) name)) }
{
    put_run(d, at, &bone_record(row, name));
}

// Stores the records of some rows, their names lying from `names` on.
fn put_bones(d: &mut [u8], at: usize, names: usize, bones: &[[u32; BONE_WORDS]])
    requires { BonesRoom bones.now at names (length d.old) }
    ensures bytes { d.new ≡ sets d.old at (records (base + names) (map bone_of bones.now)) }
{
    let mut to = at;
    let mut name = names;
    for row in bones {
        let size = name_bytes(row);
        put_bone(d, to, row, pointer(name, size));
        to += format::BONE_SIZE;
        name += size;
    }
}

// Stores the block; no bones, no block.
pub(crate) fn put_block(d: &mut [u8], at: usize, names: usize, bones: &[[u32; BONE_WORDS]])
    requires { BlockRoom bones.now at names (length d.old) }
    ensures bytes { d.new ≡ sets d.old at (block (base + names) (map bone_of bones.now)) }
{
    if bones.is_empty() {
        return;
    }
    put_run(d, at, &[bones.len() as u32, 0, 0, 0]);
    put_bones(d, at + format::BLOCK_HEADER_SIZE, names, bones);
}
