// What the keeper of a recording decides: what a read is taken for, whether the recording is as long as what was heard, where the name
// of its folder ends (LINE 2 and 3).
#![tactic(auto)]

ghost use Rattle.std.specs.Prelude.{◌≡◌, not, ◌+◌, ◌/◌, min, eqb};
ghost use Rattle.keeping.specs.Stages.{first_stage, stage_at, stage_anew, source_of, stage_after, goes_out};
ghost use Rattle.keeping.specs.Keeping.{taken_for, some_read, none_read, size_of, is_whole, behind_last};

// LINE 2.5: how often a long replay says how far it is, in bytes.
pub const REPORT: u64 = 16777216;

// LINE 2.4: between a folder and what is in it.
const SLASH: u8 = b'/';

// Where bytes come from.
#[derive(Clone, Copy)]
pub enum Source {
    Recording,
    Input,
    Line,
}

// What a read is taken for: bytes heard silently, the end of a recording that another follows, the end of the replay, bytes heard and answered, a silence, the end, a line that is
// closed, what can't be read.
#[derive(Clone, Copy)]
pub enum Next {
    Silent,
    Anew,
    Begin,
    Answer,
    Wait,
    End,
    Closed,
    Broken,
}

// How far it is: whether a recording is still replayed, whether the device is to be switched on anew for the next one, how many bytes of the
// recording were heard with the part that was read last, how many bytes that part has, and whether all is over.
#[derive(Clone, Copy)]
pub struct Stage {
    pub replays: bool,
    pub anew: bool,
    pub heard: u64,
    pub count: usize,
    pub over: bool,
}

// Before the first part.
pub fn first_stage(replays: bool) -> Stage
    ensures { result ≡ first_stage replays }
{
    stage_at(replays, 0, 0, false)
}

fn stage_at(replays: bool, heard: u64, count: usize, over: bool) -> Stage
    ensures { result ≡ stage_at replays heard count over }
{
    Stage {
        replays,
        anew: false,
        heard,
        count,
        over,
    }
}

// Before the first part of the next recording.
fn stage_anew() -> Stage
    ensures { result ≡ stage_anew }
{
    Stage {
        replays: true,
        anew: true,
        heard: 0,
        count: 0,
        over: false,
    }
}

// Where the next part comes from.
pub fn source_of(replays: bool, online: bool) -> Source
    ensures { result ≡ source_of replays online }
{
    match (replays, online) {
        (true, _) => Source::Recording,
        (false, true) => Source::Line,
        (false, false) => Source::Input,
    }
}

// How far it is behind a read; `kept` says whether bytes of the line stand in the recording.
pub fn stage_after(next: Next, heard: u64, count: usize, kept: bool) -> Stage
    ensures { result ≡ stage_after next heard count kept }
{
    match next {
        Next::Silent => stage_at(true, grown(heard, count), count, false),
        Next::Anew => stage_anew(),
        Next::Answer if kept => stage_at(false, grown(heard, count), count, false),
        Next::Begin | Next::Wait => stage_at(false, heard, 0, false),
        Next::Answer | Next::End | Next::Closed | Next::Broken => {
            stage_at(false, heard, 0, true)
        }
    }
}

// Whether something is to go out: never while the recording is replayed.
pub fn goes_out(replays: bool, given: usize) -> bool
    ensures { result ≡ goes_out replays given }
{
    !replays & (0 < given)
}

// What a read is taken for; with no bytes read, `terminal` says whether the source is one, and `left` whether another recording is named.
pub fn taken_for(source: Source, failed: bool, terminal: bool, left: bool, count: usize) -> Next
    ensures { result ≡ taken_for source failed terminal left count }
{
    if failed {
        return Next::Broken;
    }
    if count == 0 {
        return none_read(source, terminal, left);
    }
    some_read(source)
}

// Bytes.
fn some_read(source: Source) -> Next
    ensures { result ≡ some_read source }
{
    match source {
        Source::Recording => Next::Silent,
        Source::Input | Source::Line => Next::Answer,
    }
}

// No bytes.
fn none_read(source: Source, terminal: bool, left: bool) -> Next
    ensures { result ≡ none_read source terminal left }
{
    match source {
        Source::Recording if left => Next::Anew,
        Source::Recording => Next::Begin,
        Source::Input => Next::End,
        Source::Line if terminal => Next::Wait,
        Source::Line => Next::Closed,
    }
}

// How many bytes were heard with these.
pub fn grown(heard: u64, count: usize) -> u64
    ensures { result ≡ min (heard + count) 18446744073709551615 }
{
    heard.saturating_add(count as u64)
}

// Whether a long replay has to say how far it is.
pub fn reports(before: u64, after: u64) -> bool
    ensures { result ≡ not (eqb (before / 16777216) (after / 16777216)) }
{
    before / REPORT != after / REPORT
}

// How long a file is, by the place of its end; 0 where that can't be told.
pub fn size_of(end: Option<u64>) -> u64
    ensures { result ≡ size_of end }
{
    end.unwrap_or(0)
}

// Whether a recording that ends there holds as many bytes as were heard.
pub fn is_whole(end: Option<u64>, heard: u64) -> bool
    ensures { result ≡ is_whole end heard }
{
    end == Some(heard)
}

// How many bytes of a path are its folder's: those up to the last slash, that too.
pub fn folder_end(path: &[u8]) -> usize
    ensures { result ≡ behind_last 47 path.now }
{
    match path.iter().rposition(|&b| b == SLASH) {
        Some(last) => last + 1,
        None => 0,
    }
}
