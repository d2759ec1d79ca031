// A reader: it holds a file and its place in it. Document 01, "a reader that holds the file and its place". Each method is thin: the
// work is that of `fields` and `ends`. Past the end a number is 0 and a place is the end, so every method has an answer everywhere.
#![tactic(auto)]

ghost use Rattle.std.specs.Prelude.{◌+◌, ◌≡◌};
ghost use Rattle.fields.specs.Fields.{byte, be16, be32};
ghost use Rattle.ends.specs.Ends.{on};

#[derive(Clone, Copy)]
pub struct Reader<'a> {
    pub file: &'a [u8],
    pub at: usize,
}

// At a place of a file.
pub fn start<'a>(file: &'a [u8], at: usize) -> Reader<'a>
    ensures { (result.file ≡ file.entry) × (result.at ≡ at) }
{
    Reader { file, at }
}

impl<'a> Reader<'a> {
    pub fn byte(self) -> u8
        ensures { result ≡ byte self.entry.file.now self.entry.at }
    {
        fields::byte(self.file, self.at)
    }

    pub fn be16(self) -> u16
        ensures { result ≡ be16 self.entry.file.now self.entry.at }
    {
        fields::be16(self.file, self.at)
    }

    pub fn be32(self) -> u32
        ensures { result ≡ be32 self.entry.file.now self.entry.at }
    {
        fields::be32(self.file, self.at)
    }

    // k bytes on.
    pub fn skip(self, k: usize) -> Reader<'a>
        ensures { (result.file ≡ self.entry.file) × (result.at ≡ on self.entry.file.now self.entry.at k) }
    {
        let at = ends::on(self.file, self.at, k);
        Reader {
            file: self.file,
            at,
        }
    }
}

// "A list is u8 count and u16 paths": its count.
pub fn list_count(file: &[u8], at: usize) -> u8
    ensures { result ≡ byte file.now at }
{
    start(file, at).byte()
}

// ---- a net at its place: "u16 name number, u8 included 0 or 1, u32 wire counter"

pub fn net_name(file: &[u8], at: usize) -> u16
    ensures { result ≡ be16 file.now at }
{
    start(file, at).be16()
}

pub fn net_wires(file: &[u8], at: usize) -> u32
    ensures { result ≡ be32 file.now (at + 3) }
{
    start(file, at).skip(3).be32()
}
