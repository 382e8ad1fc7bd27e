// The segment report: the main segments whose SIT entry has a valid count that is off, and the valid blocks of all.
// What each means is in specs/: Off, Report.
#![tactic(auto)]

ghost use Rattle.std.specs.Prelude.{◌≡◌, ◌*◌, ◌≤◌, ◌<◌, length, Err};
ghost use Rattle.checkpoint.specs.OpenImage.{card_in};
ghost use Rattle.sit.specs.Table.{sit_entry};
ghost use Rattle.segment_report.specs.Report.{reported, with_segment, numbers_in, report_of, segment_report};

use answer::Refusal;
use sit::SegmentTable;

// A report's numbers, as they cross to C: how many segments are listed, and the ones in all maps.
#[repr(C)]
#[derive(Clone, Copy)]
pub struct Segments {
    pub answer: u32,
    pub count: u32,
    pub valid_blocks: u32,
}

// One segment more: its ones are added, and it is listed if its count is off.
#[tactic(auto, using(sit::proofs::Inside::entry_size, crate::proofs::Tallying::in_order, crate::proofs::Tallying::off))]
fn add_segment(table: SegmentTable, segment: u32, tally: &mut Segments, list: &mut [u8])
    requires segment_bound { segment < table.card.volume.areas.main_segments }
    requires room { 4 * table.card.volume.areas.main_segments ≤ length list.old }
    requires tally_bound { (tally.old.count ≤ segment) × (tally.old.valid_blocks ≤ 512 * segment) }
    ensures { reported tally.new list.new
        ≡ with_segment (sit_entry (card_in table.entry.card) table.entry.card.volume segment) segment (reported tally.old list.old) }
{
    let entry = table.entry_of(segment);
    let ones = sit::ones(&entry[2..66]);
    tally.valid_blocks += ones;
    if sit::valid_count(entry) != ones {
        field::put32(list, 4 * tally.count as usize, segment);
        tally.count += 1;
    }
}

// All main segments in order, so that the list rises.
fn report_opened(table: SegmentTable, list: &mut [u8]) -> Segments
    requires { 4 * table.card.volume.areas.main_segments ≤ length list.old }
    ensures { reported result list.new ≡ report_of (card_in table.entry.card) table.entry.card.volume list.old }
{
    let mut tally = Segments {
        answer: answer::DATA,
        count: 0,
        valid_blocks: 0,
    };
    for segment in 0..table.card.volume.areas.main_segments {
        add_segment(table, segment, &mut tally, list);
    }
    tally
}

// The image opens first; only then does the number of its main segments say how long the list has to be.
#[tactic(auto, using(crate::proofs::Ends::ways_of_ending))]
fn report_or_refuse(image: &[u8], list: &mut [u8]) -> Result<Segments, Refusal>
    ensures { reported (numbers_in result) list.new ≡ segment_report image.now list.old }
{
    let table = sit::open(image)?;
    if list.len() / 4 < table.card.volume.areas.main_segments as usize {
        return Err(Refusal::OutOfShape);
    }
    Ok(report_opened(table, list))
}

fn refused(refusal: Refusal) -> Segments
    ensures { result ≡ numbers_in (Err refusal) }
{
    Segments {
        answer: refusal.number(),
        count: 0,
        valid_blocks: 0,
    }
}

pub fn report(image: &[u8], list: &mut [u8]) -> Segments
    ensures { reported result list.new ≡ segment_report image.now list.old }
{
    report_or_refuse(image, list).unwrap_or_else(refused)
}
