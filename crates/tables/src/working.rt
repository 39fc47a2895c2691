// The tables that deriving fills, as the writer and the check lend them.
ghost use Rattle.tables.specs.Working.{lists, SameTables, Zeroed};

// The seven of them, each lent by `&mut`.
#[derive(Drop)]
pub struct Working<'a> {
    pub buckets: &'a mut [u32],
    pub entries: &'a mut [u32],
    pub inverse: &'a mut [u32],
    pub local: &'a mut [u32],
    pub parents: &'a mut [u16],
    pub children: &'a mut [u16],
    pub pending: &'a mut [u32],
}

impl Working<'_> {
    // Clears all tables.
    pub fn clear(&mut self)
        ensures tables { Zeroed (lists self.old) (lists self.new) }
        ensures same { SameTables self.old self.new }
    {
        self.buckets.fill(0);
        self.entries.fill(0);
        self.inverse.fill(0);
        self.local.fill(0);
        self.parents.fill(0);
        self.children.fill(0);
        self.pending.fill(0);
    }
}
