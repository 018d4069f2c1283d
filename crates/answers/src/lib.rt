// The answer of a call as a value, and the lines that it prints.
#![tactic(auto)]

ghost use Rattle.std.specs.Prelude.{◌≡◌, List, ◌≤◌, length, take};
ghost use Rattle.sampleinfo.specs.declared.Info.{Info};
ghost use Rattle.model.specs.Model as model;
ghost use Rattle.model.specs.Model.{Answer, selected};
ghost use Rattle.pairs.specs.Flat.{pairs_of};
ghost use Rattle.printing.specs.Printout.{printed};
ghost use Rattle.printing.specs.Lines.{Laid};
ghost use Rattle.answers.specs.Sizes.{most};
ghost use Rattle.answers.specs.Says.{Shown, Says};
ghost use Rattle.answers.specs.SoFar.{IsBlank, Lays};

use text::Page;

// What a call answers that is not refused. The pairs of a selection and the infos of a list stand in lent words, and their number here.
#[derive(Clone, Copy)]
pub enum Reply {
    Ok,
    Added {
        key: u64,
        slot: u64,
        evicted: Option<u64>,
    },
    Selected(usize),
    Infos(usize),
    Next(Option<u64>),
}

impl Reply {
    // How many pairs or infos there can be: as many as there are slots.
    pub const MOST: usize = 256;

    // The words of the lent pairs and of the lent infos.
    pub const PAIRS_SIZE: usize = 2 * Reply::MOST;

    pub const INFOS_SIZE: usize = infos::InfoWords::WORDS * Reply::MOST;

    // The bytes of the lent lines: the line that says how many there are, a line for each, and as much room again as is asked for one.
    pub const LINES_SIZE: usize = printing::LINE_ROOM * (Reply::MOST + 2);
}

// Two loops: of a closure that adds a line, one loop would have to be told all that the two tell.

// A line that says how many there are, and a line for each pair.
fn pair_lines(page: &mut Page, words: &[u64], n: usize)
    requires { IsBlank page.old }
    ensures same { page.new.bytes.ghost_name ≡ page.old.bytes.ghost_name }
    ensures told { n ≤ most → n ≤ length (pairs_of words.now) → Lays page.old (printed (selected (take n (pairs_of words.now)))) page.new }
{
    printing::selected_line(page, n as u64);
    let (pairs, _) = words.as_chunks::<2>();
    let shown = &pairs[..n.min(pairs.len())];
    for pair in shown {
        printing::pair_line(page, pair[0], pair[1]);
    }
}

// A line that says how many there are, and a line for each info.
fn info_lines(page: &mut Page, infos: &[u64; Reply::INFOS_SIZE], n: usize)
    requires { IsBlank page.old }
    ensures same { page.new.bytes.ghost_name ≡ page.old.bytes.ghost_name }
    ensures told { (xs : List Info) → Shown n infos.now xs → Lays page.old (printed (model.infos xs)) page.new }
{
    printing::samples_line(page, n as u64);
    // By place: an info is read off the lent words by its place.
    for p in 0..n {
        printing::info_line(page, infos::get_info(infos, p));
    }
}

fn lines(
    page: &mut Page,
    r: Result<Reply, u64>,
    pairs: &[u64; Reply::PAIRS_SIZE],
    infos: &[u64; Reply::INFOS_SIZE],
)
    requires { IsBlank page.old }
    ensures same { page.new.bytes.ghost_name ≡ page.old.bytes.ghost_name }
    ensures told { (a : Answer) → Says r pairs.now infos.now a → Lays page.old (printed a) page.new }
{
    match r {
        Err(n) => printing::refused_line(page, n),
        Ok(Reply::Ok) => printing::ok_line(page),
        Ok(Reply::Added { key, slot, evicted }) => printing::key_line(page, key, slot, evicted),
        Ok(Reply::Selected(n)) => pair_lines(page, pairs, n),
        Ok(Reply::Infos(n)) => info_lines(page, infos, n),
        Ok(Reply::Next(key)) => printing::next_line(page, key),
    }
}

// The lines of a reply, or of the number that it was refused by, go to the front of the lent bytes; the answer is how many bytes they are.
pub fn print(
    r: Result<Reply, u64>,
    pairs: &[u64; Reply::PAIRS_SIZE],
    infos: &[u64; Reply::INFOS_SIZE],
    line: &mut [u8; Reply::LINES_SIZE],
) -> usize
    ensures { (a : Answer) → Says r pairs.now infos.now a → Laid line.old 0 (printed a) line.new result }
{
    let mut page = Page::new(line);
    lines(&mut page, r, pairs, infos);
    page.at
}
