// The words of a table, one by one and by name: the layout of records in code. A table that is read is lent as a `Table`. One that is written is lent
// as its words, and goes with the number of its slots: a struct with a `&mut` in it would have to promise, at each call, that it is still the same.
ghost use Rattle.std.specs.Prelude.{◌≡◌, ◌+◌, ◌*◌, ◌<◌, ◌≤◌, get_or, set};
ghost use Rattle.model.specs.Map.{State, Link, Tag, record_size, table_size, put};
ghost use Rattle.table.specs.Words.{Sized, blanked};

// How many words a record has, and which of them are the state, the first of the links, and the tag.
pub const RECORD: usize = 6;

const STATE: usize = 0;

const LINKS: usize = 1;

const TAG: usize = 5;

// How many words a table has.
pub fn size(slots: u32) -> usize
    ensures { result ≡ table_size slots }
{
    RECORD * slots as usize
}

// A table that is lent to be read: how many slots it has, and its words.
#[derive(Clone, Copy)]
pub struct Table<'a> {
    pub slots: usize,
    pub words: &'a [u32],
    ghost sized: { Sized slots words.now },
}

impl Table<'_> {
    ghost use Rattle.table.specs.Seen.{map_of};

    // Word c of the record of slot x.
    fn at(&self, c: usize, x: usize) -> u32
        requires { (x < self.now.slots) × (c < record_size) }
        ensures { result ≡ get_or self.now.words.now (record_size * x + c) 0 }
    {
        self.words[RECORD * x + c]
    }

    #[tactic(auto, unfolding(model::specs::Map::field_at))]
    pub fn state(&self, x: usize) -> u32
        requires { x < self.now.slots }
        ensures { result ≡ (map_of self.now).state x }
    {
        self.at(STATE, x)
    }

    // αi(x), as the table's word.
    #[tactic(auto, unfolding(model::specs::Map::field_at))]
    pub fn word(&self, i: usize, x: usize) -> u32
        requires { (x < self.now.slots) × (i ≤ 3) }
        ensures { result ≡ (map_of self.now).link i x }
    {
        self.at(LINKS + i, x)
    }

    // αi(x), as a slot.
    pub fn link(&self, i: usize, x: usize) -> usize
        requires { (x < self.now.slots) × (i ≤ 3) }
        ensures { result ≡ (map_of self.now).link i x }
    {
        self.word(i, x) as usize
    }

    #[tactic(auto, unfolding(model::specs::Map::field_at))]
    pub fn tag(&self, x: usize) -> u32
        requires { x < self.now.slots }
        ensures { result ≡ (map_of self.now).tag x }
    {
        self.at(TAG, x)
    }
}

// Sets word c of the record of slot x to v.
fn put_at(slots: usize, table: &mut [u32], c: usize, x: usize, v: u32)
    requires sized { Sized slots table.old }
    requires word_in_table { (x < slots) × (c < record_size) }
    ensures { table.new ≡ set table.old (record_size * x + c) v }
{
    table[RECORD * x + c] = v;
}

#[tactic(auto, unfolding(model::specs::Map::put))]
pub fn put_state(slots: usize, table: &mut [u32], x: usize, v: u32)
    requires sized { Sized slots table.old }
    requires slot_in_table { x < slots }
    ensures { table.new ≡ put table.old State x v }
{
    put_at(slots, table, STATE, x, v);
}

// Sets αi(x) to v.
#[tactic(auto, unfolding(model::specs::Map::put))]
pub fn put_link(slots: usize, table: &mut [u32], i: usize, x: usize, v: u32)
    requires sized { Sized slots table.old }
    requires link_in_table { (x < slots) × (i ≤ 3) }
    ensures { table.new ≡ put table.old (Link i) x v }
{
    put_at(slots, table, LINKS + i, x, v);
}

#[tactic(auto, unfolding(model::specs::Map::put))]
pub fn put_tag(slots: usize, table: &mut [u32], x: usize, v: u32)
    requires sized { Sized slots table.old }
    requires slot_in_table { x < slots }
    ensures { table.new ≡ put table.old Tag x v }
{
    put_at(slots, table, TAG, x, v);
}

// Sets the record of slot x to zeros.
pub fn blank(slots: usize, table: &mut [u32], x: usize)
    requires sized { Sized slots table.old }
    requires slot_in_table { x < slots }
    ensures { table.new ≡ blanked x table.old }
{
    for c in 0..RECORD {
        put_at(slots, table, c, x, 0);
    }
}
