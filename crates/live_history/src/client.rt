//! Who talks with the program.
ghost use Rattle.std.specs.Prelude.{◌≡◌, ◌+◌, ◌<◌, ◌≤◌, ◌↔◌, take, length, IfErr, IfOk, IsErr, IsTrue, OnOk};
ghost use Rattle.std.specs.Io.KnownBytes.{Appends, ReadConsumes};
ghost use Rattle.devices.specs.Device.{PullState, PushState, end_count, failure_count};
ghost use Rattle.live_history.specs.Client.{Ends, IsAllRepliedTo};

use devices::{Failed, SendError};

/// Who talks with the program: turns are read of it, and replies go to it. It may wait for each reply before it goes on,
/// so it is read only where all turns that were read whole are replied to, and the replies were flushed.
pub trait Client {
    ghost input: { Self → PullState };

    ghost output: { Self → PushState };

    /// Both as they were before the talk.
    ghost first: { Self → Ends };

    /// Puts bytes at the front of the slice and says how many: 0 is the end of the input.
    fn read(&mut self, slice: &mut [u8]) -> Result<usize, Failed>
        requires some { 0 < length slice.old }
        requires replied { IsAllRepliedTo (first self.old) (input self.old) (output self.old) }
        ensures bound { IfOk result (λ n. n ≤ length slice.new) }
        ensures bytes { ReadConsumes (input self.old).left (input self.new).left result slice.new }
        ensures counted { (input self.new).calls ≡ (input self.old).calls + 1 }
        ensures ends { (input self.new).ends ≡ (input self.old).ends + end_count result }
        ensures failures { (input self.new).failures ≡ (input self.old).failures + failure_count result }
        ensures failed { IsErr result ↔ IsTrue (input self.new).has_failed }
        ensures output { output self.new ≡ output self.old }
        ensures first { first self.new ≡ first self.old };

    /// Sends all the bytes, and flushes them. The first failure ends it.
    fn send(&mut self, bytes: &[u8]) -> Result<(), SendError>
        ensures ok { OnOk result (Appends (output self.old).gone (output self.new).gone bytes.now) }
        ensures flushed { OnOk result (IsTrue (output self.new).is_flushed) }
        ensures within { IfErr result (λ e. e.sent ≤ length bytes.now) }
        ensures sent { IfErr result
            (λ e. Appends (output self.old).gone (output self.new).gone (take e.sent bytes.now)) }
        ensures failed { IsErr result ↔ IsTrue (output self.new).has_failed }
        ensures unfailed { OnOk result ((output self.new).failures ≡ (output self.old).failures) }
        ensures fails_once { (output self.new).failures ≤ (output self.old).failures + 1 }
        ensures input { input self.new ≡ input self.old }
        ensures first { first self.new ≡ first self.old };
}
