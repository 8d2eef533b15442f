// A commit's write set in the record area: each object written gets its value as one new version, and its versions that no open reader holds any
// more go.
#![tactic(auto)]

ghost use Rattle.layout.specs.Offsets.{Sane};
ghost use Rattle.final_commit.specs.Install.{Ready, Installs};
ghost use Rattle.final_commit.specs.Publish.{Few, Publishing, Publishes};

use execution::Entry;
use model::{CommitTimestamp, Limits};

// One entry after another: the objects passed have their new version. Those not written keep theirs, since by the shape check each of them is held.
// Of an object its versions are lent, which end where its bounds begin.
// The readers' cells are lent apart: two parts of one area cannot be lent at a time.
fn install(
    records: &mut [u8],
    readers: &[u8],
    l: Limits,
    timestamp: CommitTimestamp,
    writes: &[Entry],
)
    requires sane { Sane l }
    requires ready { Ready l records.old readers.now timestamp.0 writes.now }
    ensures { Installs l timestamp.0 writes.now readers.now records.old records.new }
{
    let versions = layout::bounds_at(l) * 8;
    let stamp = u64::from(timestamp.0);
    for e in writes {
        let at = layout::object_at(l, e.object) * 8;
        let end = at + versions;
        versions_push::push_version(&mut records[at..end], readers, l.readers, stamp, e.value);
    }
}

// Installs a write set in the record area. The readers' cells are copied: two parts of one area cannot be lent at a time.
pub fn publish(records: &mut [u8], l: Limits, timestamp: CommitTimestamp, writes: &[Entry])
    requires few { Few l }
    requires publishing { Publishing l records.old timestamp.0 writes.now }
    ensures { Publishes l timestamp.0 writes.now records.old records.new }
{
    let mut readers: [u8; 128] = [0; 128];
    let first = layout::reader_at(l, 0) * 8;
    let end = layout::size_at(l) * 8;
    let size = end - first;
    readers[..size].copy_from_slice(&records[first..end]);
    install(records, &readers[..size], l, timestamp, writes);
}
