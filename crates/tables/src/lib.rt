// Check 5 on what both versions have before their nets: the limit, the path, name and rule tables.
#![tactic(auto, using(crate::specs::Tables::ways, crate::specs::Steps::ways))]

ghost use Rattle.std.specs.Prelude.{◌≡◌};
ghost use Rattle.net_file.specs.Read.{many, read_rule};
ghost use Rattle.walk.specs.After.{after};
ghost use Rattle.tables.specs.Tables.{read_path_table, read_name_table};
ghost use Rattle.tables.specs.Whole.{read_tables};
ghost use Rattle.tables.specs.Steps.{tables_at};

// The path table, of which at most 255 differ from the free path.
pub fn path_table(s: &[u8]) -> Option<usize>
    ensures { result ≡ after 9 read_path_table s.now }
{
    if s.len() < 11 {
        return None;
    }
    let n = fields::be16(s, 9);
    let m = walk_paths::paths(s, 11, n as u32)?;
    if 255 < free_path::others(s, 11, n as u32) {
        return None;
    }
    Some(m)
}

// The name table over np paths.
pub fn name_table(s: &[u8], at: usize, np: u32) -> Option<usize>
    ensures { result ≡ after at (read_name_table np) s.now }
{
    if s.len().checked_sub(2)? < at {
        return None;
    }
    let n = fields::be16(s, at);
    if 1024 < n {
        return None;
    }
    walk_names::names(s, at + 2, n as u32, np)
}

// The rules over np paths.
pub fn rule_table(s: &[u8], at: usize, np: u32) -> Option<usize>
    ensures { result ≡ after at (many 2 64 (read_rule np)) s.now }
{
    if s.len().checked_sub(2)? < at {
        return None;
    }
    let n = fields::be16(s, at);
    if 64 < n {
        return None;
    }
    walk_rules::rules(s, at + 2, n as u32, np)
}

// All that both versions have before their nets: where the name count and the net count stand.
pub fn tables(s: &[u8]) -> Option<(usize, usize)>
    ensures { result ≡ tables_at s.now (after 5 read_tables s.now) }
{
    let m = path_table(s)?;
    let np = fields::be16(s, 9) as u32;
    let r = name_table(s, m, np)?;
    let q = rule_table(s, r, np)?;
    Some((m, q))
}
