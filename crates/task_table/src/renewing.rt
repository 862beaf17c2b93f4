//! Steps of a pass that replaces a life: its words are renewed, and then the next life stands.
ghost use Rattle.std.specs.Prelude.{◌≡◌};
ghost use Rattle.core_state.specs.Counts.{known_key};
ghost use Rattle.core_state.specs.Events.{Event as event};
ghost use Rattle.core_state.specs.Guards.{CanFinish, CanRenewDescriptor, CanRenewNotify};
ghost use Rattle.core_steps.specs.Serving.{work_life};
ghost use Rattle.task_table.specs.Passes.{IsPassStep, room_of};

use crate::pass::Pass;
use crate::table::TaskTable;
use core_state::{Course, Descriptor, NotifyWord, Recovery};
use core_steps::kinds::{Kind, Touched};

impl<C: Course> Pass<C> {
    pub(crate) fn renew_notify(&mut self, table: &TaskTable<C>, row: u32, word: u32) -> Touched
        requires table { self.old.table ≡ table.now }
        requires can { CanRenewNotify C.setting self.old.view row (known_key row self.old.view) (work_life self.old.view) word }
        ensures step { IsPassStep C.setting (event.renew_notify row (known_key row self.old.view) (work_life self.old.view) word) result self.old self.new }
        ensures room { room_of self.new ≡ room_of self.old }
    {
        let at = self.notify_place(table, row, word);
        let next = self.next_life(table, row);
        let kind = Kind::RenewNotify { row, word };
        self.swap(table, at, NotifyWord::empty(next).word(), kind)
    }

    pub(crate) fn renew_descriptor(&mut self, table: &TaskTable<C>, row: u32) -> Touched
        requires table { self.old.table ≡ table.now }
        requires can { CanRenewDescriptor C.setting self.old.view row (known_key row self.old.view) (work_life self.old.view) }
        ensures step { IsPassStep C.setting (event.renew_descriptor row (known_key row self.old.view) (work_life self.old.view)) result self.old self.new }
        ensures room { room_of self.new ≡ room_of self.old }
    {
        let at = table.descriptor_place(row);
        let next = Descriptor {
            life: self.next_life(table, row),
            struck: false,
            spent: 0,
        };
        self.swap(table, at, next.word(), Kind::RenewDescriptor { row })
    }

    pub(crate) fn finish(&mut self, table: &TaskTable<C>, row: u32) -> Touched
        requires table { self.old.table ≡ table.now }
        requires can { CanFinish C.setting self.old.view row (known_key row self.old.view) (work_life self.old.view) }
        ensures step { IsPassStep C.setting (event.finish row (known_key row self.old.view) (work_life self.old.view)) result self.old self.new }
        ensures room { room_of self.new ≡ room_of self.old }
    {
        let at = table.recovery_place(row);
        let next = Recovery {
            life: self.next_life(table, row),
            renewing: false,
        };
        self.swap(table, at, next.word(), Kind::Finish { row })
    }
}
