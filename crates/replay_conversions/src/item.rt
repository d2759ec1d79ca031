// The head of an item: what is given to a call, and what is expected of it.

#[derive(Clone, Copy)]
pub struct Item {
    pub call: u8,
    pub refusal: u32,
    pub length: usize,
    pub room: usize,
    pub result: usize,
    pub count: usize,
}

pub fn said(head: &[u8]) -> Item {
    Item {
        call: fields::byte(head, 0),
        refusal: fields::byte(head, 1) as u32,
        length: fields::be32(head, 2) as usize,
        room: fields::be32(head, 6) as usize,
        result: fields::be32(head, 10) as usize,
        count: fields::be16(head, 14) as usize,
    }
}

// The entries, as they stand in bytes of two each.
pub fn entries_of(bytes: &[u8], entries: &mut [u32]) {
    for i in 0..entries.len() {
        entries[i] = readers::be16_on(bytes, i, i) as u32;
    }
}
