// The head of an item: what is given to the optimiser, and what is expected of it.
ghost use Rattle.std.specs.Prelude.{◌<◌};

// What a file's head says: the pools, whether the run is cut, what is expected of it, and the room for its output.
#[derive(Clone, Copy)]
pub struct Item {
    pub nodes: u32,
    pub entries: u32,
    pub waits: u32,
    pub cut: bool,
    pub refusal: u32,
    pub steps: u32,
    pub room: usize,
    pub length: usize,
    pub result: usize,
}

fn two(a: u8, b: u8) -> u32
    ensures { result < 65536 }
{
    u16::from_be_bytes([a, b]) as u32
}

pub fn said(head: &[u8; 24]) -> Item {
    Item {
        nodes: two(head[4], head[5]),
        entries: two(head[6], head[7]),
        waits: two(head[8], head[9]),
        cut: head[10] == 1,
        refusal: head[11] as u32,
        steps: u32::from_be_bytes([head[12], head[13], head[14], head[15]]),
        room: u32::from_be_bytes([head[16], head[17], head[18], head[19]]) as usize,
        length: u32::from_be_bytes([head[0], head[1], head[2], head[3]]) as usize,
        result: u32::from_be_bytes([head[20], head[21], head[22], head[23]]) as usize,
    }
}
