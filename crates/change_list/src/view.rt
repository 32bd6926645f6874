ghost use Rattle.std.specs.Prelude.{◌≡◌, ◌/◌, ◌%◌, ◌<◌, [], length, IfOk};
ghost use Rattle.change_list.specs.Changes.{commit_at, row_at, status_of, MayFollow, IsLegal};
ghost use Rattle.change_list.specs.declared.write.Status.TheVariants.{Live};
ghost use Rattle.change_list.specs.Records.{FindsKept, HasTagOf, KeepsWrite, inserted_tag, writes_of};
ghost use Rattle.change_list.specs.Segments.{IsRun};

use crate::item::Row;
use crate::recorded::Recorded;
use crate::shared_list::SharedList;
use crate::write::Write;
use std::alloc::{AllocError, Global};
use std::marker::Model;

/// A list of commits as it was when the view was made. The first commit is 1.
///
/// Full segments are shared with the list that it was made from, and with other views.
#[derive(Drop)]
pub struct View<K> {
    pub(crate) kept: SharedList<Recorded<K>>,
}

impl<K> Model for View<K> {
    ghost use Rattle.std.specs.Prelude.{List};
    ghost use Rattle.change_list.specs.declared.write.Write.{Write};
    ghost use Rattle.change_list.specs.Records.{writes_of, IsKept};

    ghost Value = { List (Write K) };

    ghost view = { λ view. writes_of view.kept };

    ghost invariant = { λ view. IsKept view.kept };
}

impl<K: Copy> View<K> {
    /// A list without commits.
    pub(crate) fn new(alloc: Global) -> View<K>
        ensures { result ≡ [] }
    {
        View {
            kept: SharedList::new(alloc),
        }
    }

    /// How many commits it has.
    pub fn len(&self) -> usize
        ensures len { result ≡ length self.now }
        ensures legal { IsLegal self.now }
    {
        self.kept.len()
    }

    /// The commit with a number.
    pub fn get(&self, number: u64) -> Option<Write<K>>
        ensures { result ≡ commit_at self.now number }
    {
        match self.find(number) {
            Some(kept) => Some(kept.write()),
            None => None,
        }
    }

    /// The row with a number, live or dead, as its commit made it. It takes at most two reads, however often the row
    /// was moved.
    pub fn row(&self, number: u64) -> Option<Row<K>>
        ensures { result ≡ row_at self.now number }
    {
        match self.find(number)? {
            Recorded::Insert(key, tag) => Some(Row {
                row: number,
                key,
                tag,
            }),
            Recorded::Delete(_) => None,
            Recorded::Move(key, _, origin) => {
                let tag = self.inserted_tag(origin)?;
                Some(Row {
                    row: number,
                    key,
                    tag,
                })
            }
        }
    }

    /// The commit with a number, as it is stored.
    fn find(&self, number: u64) -> Option<Recorded<K>>
        ensures { FindsKept self.now number result }
    {
        if number == 0 {
            return None;
        }
        self.kept.get((number - 1) as usize)
    }

    /// The commits after the first `place`, as they are stored, up to the end of a segment.
    pub(crate) fn run(&self, place: usize) -> &[Recorded<K>]
        requires { place < length self.now }
        ensures { IsRun self.now place (writes_of result.now) }
    {
        self.kept.run(place)
    }

    /// The tag of the row that a commit inserts, if it inserts one.
    fn inserted_tag(&self, number: u32) -> Option<u64>
        ensures { result ≡ inserted_tag (commit_at self.now number) }
    {
        match self.get(u64::from(number)) {
            Some(Write::Insert(_, tag)) => Some(tag),
            _ => None,
        }
    }

    /// The number of the insert from which a live row descends, whose tag it has.
    fn origin(&self, row: u32) -> u32
        requires { status_of self.now row ≡ Live }
        ensures { HasTagOf self.now row result }
    {
        match self.find(u64::from(row)) {
            Some(kept) => kept.origin(row),
            None => row,
        }
    }

    /// How a next commit is to be stored.
    pub(crate) fn record(&self, write: Write<K>) -> Recorded<K>
        requires follows { MayFollow self.now write }
        requires few { length self.now < 4294967295 }
        ensures { KeepsWrite self.now write result }
    {
        match write {
            Write::Insert(key, tag) => Recorded::Insert(key, tag),
            Write::Delete(row) => Recorded::Delete(row),
            Write::Move(row, key) => {
                let row = row as u32;
                Recorded::Move(key, row, self.origin(row))
            }
        }
    }

    /// How many full segments of 256 commits it shares.
    pub fn segments(&self) -> usize
        ensures { result ≡ length self.now / 256 }
    {
        self.kept.segments()
    }

    /// How many commits come after the full segments.
    pub fn tail_len(&self) -> usize
        ensures { result ≡ length self.now % 256 }
    {
        self.kept.tail_len()
    }

    /// A copy of the view, which shares its full segments.
    ///
    /// # Errors
    /// Memory ran out.
    pub(crate) fn copy(&self) -> Result<View<K>, AllocError>
        ensures { IfOk result (λ copy. copy ≡ self.now) }
    {
        let kept = self.kept.copy()?;
        Ok(View { kept })
    }
}
