// How far the input is read.
ghost use Rattle.std.specs.Prelude.{◌≡◌, ◌+◌, ◌≤◌, ◌<◌};

// So many whole records, and so many bytes of the next, which lacks at least one. The buffer with those bytes stays beside it: the
// theorem `Whole`, which may not change, is of a `Progress` of the counts alone.
#[derive(Clone, Copy)]
pub struct Progress {
    pub records: usize,
    pub bytes: usize,
    ghost lacks: { bytes < 2048 },
}

impl Progress {
    ghost use Rattle.layouts.specs.Reading.{Counted, Added};

    pub(crate) fn start() -> Progress
        ensures { (result.records ≡ 0) × (result.bytes ≡ 0) }
    {
        Progress {
            records: 0,
            bytes: 0,
        }
    }

    // So many bytes more. No reading asks for more than the record under way lacks.
    pub(crate) fn add(self, count: usize) -> Progress
        requires counts { Counted self }
        requires lacked { self.bytes + count ≤ 2048 }
        ensures { Added self count result }
    {
        let bytes = self.bytes + count;
        if bytes == 2048 {
            return Progress {
                records: self.records + 1,
                bytes: 0,
            };
        }
        Progress {
            records: self.records,
            bytes,
        }
    }
}
