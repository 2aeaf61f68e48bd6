//! How many workers there are.
ghost use Rattle.std.specs.Prelude.{◌<◌, ◌≤◌};
ghost use Rattle.query_pool.specs.Serving.{most_workers};

/// A number of workers, from 1 to 64.
#[derive(Clone, Copy, Debug)]
pub struct Workers {
    pub count: usize,
    ghost some: { 0 < count },
    ghost few: { count ≤ most_workers },
}
