ghost use Rattle.std.specs.Prelude.{None, Some, ℕ, ◌≡◌, ◌≢◌, false, true};
ghost use Rattle.compute_notify.specs.Items.{computed_after, explored_after, job_item, notified_after, replaces, told_came};

use crate::close::Close;
use crate::compute::{Compute, Computed};
use crate::duty::Duty;
use crate::explore::{Explore, Explored};
use crate::look::Look;
use crate::notify::{Notified, Notify};
use crate::run::greatest_life;
use core_state::{Job, Told};
use graph_model::{Cause, Key};
use recovery::{Owe, Recover};

/// What is left to do. Work that is met on the way stands above the item that met it.
#[derive(Clone, Copy, Debug)]
pub(crate) enum Item {
    /// The end of a stack: its credit is to be given back.
    Credit,
    Explore { explore: Explore },
    Compute { compute: Compute },
    Close { close: Close },
    Notify { notify: Notify },
    Look { look: Look },
    Owe { owe: Owe },
    Recover { recover: Recover },
}

/// What the turn of an item brought.
#[derive(Clone, Copy, Debug)]
pub(crate) enum Came {
    Nothing,
    /// An item on the same stack.
    Above { item: Item },
    /// A stack that begins with this item.
    Stack { item: Item },
    /// The task may have no further life.
    Spent { key: Key, life: u32, cause: Cause },
}

/// What is left of an item after its turn, and what came above it.
#[derive(Clone, Copy, Debug)]
pub(crate) struct After {
    pub left: Option<Item>,
    pub came: Came,
}

impl After {
    pub(crate) fn stays(item: Item) -> After
        ensures { result ≡ record { left = Some item; came = Came.Nothing } }
    {
        After::over(item, Came::Nothing)
    }

    pub(crate) fn leaves() -> After
        ensures { result ≡ record { left = None; came = Came.Nothing } }
    {
        After::gone(Came::Nothing)
    }

    /// The item stays, below what came.
    pub(crate) fn over(item: Item, came: Came) -> After
        ensures { result ≡ record { left = Some item; came = came } }
    {
        After {
            left: Some(item),
            came,
        }
    }

    /// The item leaves, and something came.
    pub(crate) fn gone(came: Came) -> After
        ensures { result ≡ record { left = None; came = came } }
    {
        After { left: None, came }
    }
}

impl Item {
    /// The item with which a job begins.
    pub(crate) fn of_job(row: u32, key: Key, job: Job, life: u32) -> Item
        ensures { result ≡ job_item (record { row = row; key = key; life = life }) job }
    {
        let duty = Duty { row, key, life };
        match job {
            Job::Explore => Item::Explore {
                explore: Explore::of(duty),
            },
            Job::Compute => Item::Compute {
                compute: Compute::of(duty),
            },
        }
    }

    /// Changes an exploring, if its turn left it and brought nothing.
    #[inline(always)]
    pub(crate) fn keep_explored(&mut self, told: &Explored) -> bool
        ensures kept { result ≡ true → (x : Explore) (lives : ℕ) → self.old ≡ Item.Explore x → explored_after x lives told.now ≡ record { left = Some self.new; came = Came.Nothing } }
        ensures same { result ≡ false → self.new ≡ self.old }
    {
        match self {
            Item::Explore { explore } => explore.keep(told),
            _ => false,
        }
    }

    /// Changes a computing, if its turn left it.
    #[inline(always)]
    pub(crate) fn keep_computed(&mut self, told: &Computed) -> bool
        ensures kept { result ≡ true → (x : Compute) (lives : ℕ) → self.old ≡ Item.Compute x → computed_after x lives told.now ≡ record { left = Some self.new; came = Came.Nothing } }
        ensures same { result ≡ false → self.new ≡ self.old }
    {
        match self {
            Item::Compute { compute } => compute.keep(told),
            _ => false,
        }
    }

    /// Changes a notification, if its turn brought nothing.
    #[inline(always)]
    pub(crate) fn keep_notified(&mut self, told: &Notified) -> bool
        requires some { (n : Notify) → self.old ≡ Item.Notify n → n.ports ≢ 0 }
        ensures kept { result ≡ true → (n : Notify) (lives : ℕ) → self.old ≡ Item.Notify n → notified_after n lives told.now ≡ record { left = Some self.new; came = Came.Nothing } }
        ensures same { result ≡ false → self.new ≡ self.old }
    {
        match self {
            Item::Notify { notify } => notify.keep(told),
            _ => false,
        }
    }
}

impl Came {
    /// The replacement of a life that shows a mark or read a bad block.
    pub(crate) fn recover(duty: Duty, cause: Cause, wait: bool, lives: u32) -> Came
        ensures { result ≡ Came.Above (Item.Recover (replaces duty cause wait lives)) }
    {
        let Duty { row, key, life } = duty;
        let greatest = greatest_life(key, lives);
        Came::Above {
            item: Item::Recover {
                recover: Recover::new(row, key, life, cause, wait, greatest),
            },
        }
    }

    /// What a spent place of a task brings.
    pub(crate) fn told(told: Told, row: u32, key: Key, lives: u32) -> Came
        ensures { result ≡ told_came told row key lives }
    {
        match told {
            Told::Spent { life: _ } | Told::Already { life: _ } => Came::Nothing,
            Told::Last { life } => Came::Above {
                item: Item::Owe {
                    owe: Owe::new(row, key, Job::Compute, life),
                },
            },
            Told::Struck { life } => {
                let duty = Duty { row, key, life };
                Came::recover(duty, Cause::Descriptor, false, lives)
            }
        }
    }
}
