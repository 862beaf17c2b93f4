use core_state::{
    BlockCells, Closing, Descriptor, Elected, Hitting, Job, NotifyWord, Recovery, Registered, Told,
};
use graph_model::{Cause, Key};
use key_table::KeyWords;
use std::alloc::AllocError;

/// A seat at a table: one call for each kind of step, stated on what the seat knows and holds. A step is
/// on one word, and no step waits or takes memory. What a word held in a step is told by `shown`.
pub trait Steps: KeyWords {
    ghost use Rattle.std.specs.Prelude.{◌≡◌, ◌≤◌, ◌+◌, ◌/◌, ◌==◌, ℕ, List, Option, IfSome, OnOk, length, ◌<◌, ◌^◌, false};
    ghost use Rattle.core_state.specs.Graph.{Setting};
    ghost use Rattle.core_state.specs.Words.{standing_life};
    ghost use Rattle.core_state.specs.Counts.{known_key};
    ghost use Rattle.core_state.specs.Events.{Can, Event, Event as event};
    ghost use Rattle.core_state.specs.Guards.{CanBuy, CanClose, CanCompute, CanDropCredit, CanElect, CanFinish, CanGiveStruck, CanGiveWritten, CanLoadNotify, CanPost, CanRegister, CanRenewDescriptor, CanRenewNotify, CanSpend, CanStrikeDescriptor, CanStrikeNotify, CanTakeTurn, InHand, KnowsRow};
    ghost use Rattle.core_state.specs.Effects.{after_computed, closing_of, elected_of, hitting_of, registered_of, told_of};
    ghost use Rattle.core_state.specs.Packed.{descriptor_of, notify_of, notify_word, recovery_of};
    ghost use Rattle.core_state.specs.Sure.{IsFresh, IsReplacing, MovedTells, PortsTell};
    ghost use Rattle.core_state.specs.declared.views.View.{View};
    ghost use Rattle.core_steps.specs.Seat.{Explores, Awaits, known_of, key_event, IsStep, IsSameTable, TurnTells, cells_in, hand_of};
    ghost use Rattle.core_steps.specs.Serving.{work_life, work_waits};

    // What is fixed for the table: its graph, its shape, the plan of strikes and the greatest life.
    ghost setting: { Self → Setting };

    // What the seat knows and holds.
    ghost view: { Self → View };

    // The word of its last step, by its place in the list of words, and the number that it held.
    ghost shown: { Self → ℕ × ℕ };

    // That this event found this number in the table's word and left what the event leaves: the seat
    // before, the event, the number, the seat after.
    ghost happened: { Self → Event → ℕ → Self → Type 0 };

    // What it borrows, by which who lent it learns what became of it.
    ghost lender: { Self → List ℕ };

    // What the other seats of what it borrows know and hold.
    ghost others: { Self → List View };

    /// Makes room for so many records. This is no step.
    fn reserve(&mut self, n: u32) -> Result<(), AllocError>
        ensures room { OnOk result (n ≤ Self.spare self.new) }
        ensures more { Self.spare self.old ≤ Self.spare self.new }
        ensures view { view self.new ≡ view self.old }
        ensures made { Self.made self.new ≡ Self.made self.old }
        ensures shown { shown self.new ≡ shown self.old }
        ensures last { Self.last self.new ≡ Self.last self.old }
        ensures table { IsSameTable setting view lender others self.old self.new };

    /// What the descriptor of a row shows.
    fn load_descriptor(&mut self, row: u32) -> Descriptor
        requires can { KnowsRow (setting self.old) (view self.old) row (known_key row (view self.old)) }
        requires room { 1 ≤ Self.spare self.old }
        ensures shows { result ≡ descriptor_of (shown self.new).1 }
        ensures step { IsStep setting view Self.made Self.last shown happened lender others (event.load_descriptor row (known_key row (view self.old))) self.old self.new }
        ensures room { Self.spare self.old ≤ Self.spare self.new + 1 };

    /// What a notify word of a row shows, which its task has.
    fn load_notify(&mut self, row: u32, word: u32) -> NotifyWord
        requires can { CanLoadNotify (setting self.old) (view self.old) row (known_key row (view self.old)) word }
        requires room { 1 ≤ Self.spare self.old }
        ensures shows { result ≡ notify_of (shown self.new).1 }
        ensures step { IsStep setting view Self.made Self.last shown happened lender others (event.load_notify row (known_key row (view self.old)) word) self.old self.new }
        ensures room { Self.spare self.old ≤ Self.spare self.new + 1 };

    /// What the recovery word of a row shows.
    fn load_recovery(&mut self, row: u32) -> Recovery
        requires can { KnowsRow (setting self.old) (view self.old) row (known_key row (view self.old)) }
        requires room { 1 ≤ Self.spare self.old }
        ensures shows { result ≡ recovery_of (shown self.new).1 }
        ensures life { result.life ≡ standing_life (shown self.new).1 }
        ensures step { IsStep setting view Self.made Self.last shown happened lender others (event.load_recovery row (known_key row (view self.old))) self.old self.new }
        ensures room { Self.spare self.old ≤ Self.spare self.new + 1 };

    /// How many stacks, spare credits and posted jobs there are.
    fn load_pending(&mut self) -> u64
        ensures number { result ≡ (shown self.new).1 }
        ensures step { IsStep setting view Self.made Self.last shown happened lender others event.load_pending self.old self.new }
        ensures room { Self.spare self.new ≡ Self.spare self.old };

    /// Whether the table was stopped.
    fn load_stop(&mut self) -> bool
        ensures number { result ≡ ((shown self.new).1 == 1) }
        ensures step { IsStep setting view Self.made Self.last shown happened lender others event.load_stop self.old self.new }
        ensures room { Self.spare self.new ≡ Self.spare self.old };

    /// Posts a job that this view owes, with a spare credit. Answers the life that was posted there
    /// before, which comes to this view with its credit, or 0. Of a job that comes no strike was made.
    fn post(&mut self, row: u32, job: Job, life: u32) -> u32
        requires can { CanPost (setting self.old) (view self.old) row job (known_key row (view self.old)) life }
        requires room { 1 ≤ Self.spare self.old }
        ensures number { result ≡ (shown self.new).1 }
        ensures step { IsStep setting view Self.made Self.last shown happened lender others (event.post row job (known_key row (view self.old)) life) self.old self.new }
        ensures fresh { 0 < result → IsFresh (setting self.new) (view self.new) job (known_key row (view self.old)) result }
        ensures room { Self.spare self.old ≤ Self.spare self.new + 1 };

    /// Takes a job with its credit. Answers its life, or 0 where none is posted. Of a job that comes no
    /// strike was made.
    fn take(&mut self, row: u32, job: Job) -> u32
        requires can { KnowsRow (setting self.old) (view self.old) row (known_key row (view self.old)) }
        requires room { 1 ≤ Self.spare self.old }
        ensures number { result ≡ (shown self.new).1 }
        ensures step { IsStep setting view Self.made Self.last shown happened lender others (event.take row job (known_key row (view self.old))) self.old self.new }
        ensures fresh { 0 < result → IsFresh (setting self.new) (view self.new) job (known_key row (view self.old)) result }
        ensures room { Self.spare self.old ≤ Self.spare self.new + 1 };

    /// Registers a port of a row's task in its notify word. A marked word is told first, and then a closed one.
    fn register(&mut self, row: u32, port: u32) -> Registered
        requires can { CanRegister (setting self.old) (view self.old) row (known_key row (view self.old)) port }
        requires room { 1 ≤ Self.spare self.old }
        ensures told { result ≡ registered_of (shown self.new).1 }
        ensures step { IsStep setting view Self.made Self.last shown happened lender others (event.register row (known_key row (view self.old)) port) self.old self.new }
        ensures room { Self.spare self.old ≤ Self.spare self.new + 1 };

    /// Spends a place of a row's task, which has so many predecessors. It was spent already where its
    /// bit was set, and is the last where it was not and all others of the life were; a marked word is
    /// told first.
    fn spend(&mut self, row: u32, place: u32, preds: u32) -> Told
        requires can { CanSpend (setting self.old) (view self.old) row (known_key row (view self.old)) place }
        requires preds { preds ≡ (setting self.old).graph.places (known_key row (view self.old)) }
        requires room { 1 ≤ Self.spare self.old }
        ensures told { result ≡ told_of preds place (shown self.new).1 }
        ensures step { IsStep setting view Self.made Self.last shown happened lender others (event.spend row (known_key row (view self.old)) place) self.old self.new }
        ensures room { Self.spare self.old ≤ Self.spare self.new + 1 };

    /// Closes a notify word of a life, which was seen open and unmarked, where it is still as it was seen.
    /// Then it answers the ports that were registered. Else a marked word is told first, and then a later life.
    fn close(&mut self, row: u32, life: u32, word: u32, seen: NotifyWord) -> Closing
        requires can { CanClose (setting self.old) (view self.old) row (known_key row (view self.old)) life word (notify_word seen) }
        requires life { seen.life ≡ life }
        requires ports { seen.ports < 2 ^ 40 }
        requires room { 1 ≤ Self.spare self.old }
        ensures told { result ≡ closing_of life (notify_word seen) (shown self.new).1 }
        ensures moved { MovedTells life result }
        ensures ports { PortsTell ((setting self.old).graph.ports (known_key row (view self.old))) word result }
        ensures step { IsStep setting view Self.made Self.last shown happened lender others (event.close row (known_key row (view self.old)) life word (notify_word seen)) self.old self.new }
        ensures room { Self.spare self.old ≤ Self.spare self.new + 1 };

    /// Elects this view to replace a life that it suspects for this cause, where the life stands. Else a
    /// later life is told where there is one, or which life is being replaced.
    fn elect(&mut self, row: u32, life: u32, cause: Cause) -> Elected
        requires can { CanElect (setting self.old) (view self.old) row (known_key row (view self.old)) life cause (work_waits (view self.old)) }
        requires room { 1 ≤ Self.spare self.old }
        ensures told { result ≡ elected_of life (shown self.new).1 }
        ensures replacing { IsReplacing result (shown self.new).1 }
        ensures step { IsStep setting view Self.made Self.last shown happened lender others (event.elect row (known_key row (view self.old)) life cause (work_waits (view self.old))) self.old self.new }
        ensures room { Self.spare self.old ≤ Self.spare self.new + 1 };

    /// Renews a notify word for the life after the one at work.
    fn renew_notify(&mut self, row: u32, word: u32)
        requires can { CanRenewNotify (setting self.old) (view self.old) row (known_key row (view self.old)) (work_life (view self.old)) word }
        ensures step { IsStep setting view Self.made Self.last shown happened lender others (event.renew_notify row (known_key row (view self.old)) (work_life (view self.old)) word) self.old self.new }
        ensures room { Self.spare self.new ≡ Self.spare self.old };

    /// Renews the descriptor for the life after the one at work, all of whose notify words were renewed.
    fn renew_descriptor(&mut self, row: u32)
        requires can { CanRenewDescriptor (setting self.old) (view self.old) row (known_key row (view self.old)) (work_life (view self.old)) }
        ensures step { IsStep setting view Self.made Self.last shown happened lender others (event.renew_descriptor row (known_key row (view self.old)) (work_life (view self.old))) self.old self.new }
        ensures room { Self.spare self.new ≡ Self.spare self.old };

    /// Lets the life after the one at work stand, all of whose words were renewed.
    fn finish(&mut self, row: u32)
        requires can { CanFinish (setting self.old) (view self.old) row (known_key row (view self.old)) (work_life (view self.old)) }
        ensures step { IsStep setting view Self.made Self.last shown happened lender others (event.finish row (known_key row (view self.old)) (work_life (view self.old))) self.old self.new }
        ensures room { Self.spare self.new ≡ Self.spare self.old };

    /// Makes the next strike of the plan, on the descriptor of its key. It misses a marked word.
    fn strike_descriptor(&mut self, row: u32) -> Hitting
        requires can { CanStrikeDescriptor (setting self.old) (view self.old) row (known_key row (view self.old)) (work_life (view self.old)) }
        requires room { 1 ≤ Self.spare self.old }
        ensures told { result ≡ hitting_of (shown self.new).1 }
        ensures step { IsStep setting view Self.made Self.last shown happened lender others (event.strike_descriptor row (known_key row (view self.old)) (work_life (view self.old))) self.old self.new }
        ensures room { Self.spare self.old ≤ Self.spare self.new + 1 };

    /// Makes the next strike of the plan, on a notify word of its key. It misses a marked word.
    fn strike_notify(&mut self, row: u32, word: u32) -> Hitting
        requires can { CanStrikeNotify (setting self.old) (view self.old) row (known_key row (view self.old)) (work_life (view self.old)) word }
        requires room { 1 ≤ Self.spare self.old }
        ensures told { result ≡ hitting_of (shown self.new).1 }
        ensures step { IsStep setting view Self.made Self.last shown happened lender others (event.strike_notify row (known_key row (view self.old)) (work_life (view self.old)) word) self.old self.new }
        ensures room { Self.spare self.old ≤ Self.spare self.new + 1 };

    /// Buys a spare credit.
    fn buy(&mut self)
        requires can { CanBuy (setting self.old) (view self.old) }
        requires room { 1 ≤ Self.spare self.old }
        ensures step { IsStep setting view Self.made Self.last shown happened lender others event.buy self.old self.new }
        ensures room { Self.spare self.old ≤ Self.spare self.new + 1 };

    /// Gives up the credit of a stack without items, or else a spare credit.
    fn drop_credit(&mut self)
        requires can { CanDropCredit (setting self.old) (view self.old) }
        requires room { 1 ≤ Self.spare self.old }
        ensures step { IsStep setting view Self.made Self.last shown happened lender others event.drop_credit self.old self.new }
        ensures room { Self.spare self.old ≤ Self.spare self.new + 1 };

    /// Takes a block, which then is in hand, with as many cells as the graph says; unstruck, it holds the
    /// value of its version. Answers None exactly where another seat has it.
    fn take_turn(&mut self, block: u32) -> Option<BlockCells>
        requires can { CanTakeTurn (setting self.old) (view self.old) block }
        requires room { 1 ≤ Self.spare self.old }
        ensures tells { TurnTells result (shown self.new).1 }
        ensures cells { IfSome result (λ x. length x.cells ≡ (setting self.old).graph.cells block) }
        ensures value { IfSome result (λ x. x.struck ≡ false → 0 < x.tag → x.cells ≡ (setting self.old).graph.value ((setting self.old).graph.writer block x.tag)) }
        ensures step { IsStep setting view Self.made Self.last shown happened lender others (event.take_turn block (cells_in result)) self.old self.new }
        ensures room { Self.spare self.old ≤ Self.spare self.new + 1 };

    /// Gives the block in hand back as it was taken.
    fn give_read(&mut self, block: u32, cells: BlockCells)
        requires can { InHand (view self.old) block cells }
        requires room { 1 ≤ Self.spare self.old }
        ensures step { IsStep setting view Self.made Self.last shown happened lender others (event.give_read block cells) self.old self.new }
        ensures room { Self.spare self.old ≤ Self.spare self.new + 1 };

    /// Notes that the result of a life was made, from all inputs. This is no step, and no word changes.
    fn computed(&mut self, key: Key, life: u32)
        requires can { CanCompute (setting self.old) (view self.old) key.0 life }
        requires room { 1 ≤ Self.spare self.old }
        ensures view { view self.new ≡ after_computed key.0 life (view self.old) }
        ensures made { Self.made self.new ≡ Self.made self.old }
        ensures shown { shown self.new ≡ shown self.old }
        ensures room { Self.spare self.old ≤ Self.spare self.new + 1 }
        ensures last { Self.last self.new ≡ Self.last self.old }
        ensures table { IsSameTable setting view lender others self.old self.new };

    /// Gives the block in hand back, which holds the result of this life now.
    fn give_written(&mut self, key: Key, life: u32, block: u32, cells: BlockCells)
        requires can { CanGiveWritten (setting self.old) (view self.old) key.0 life block (hand_of (view self.old) block) cells }
        requires room { 1 ≤ Self.spare self.old }
        ensures step { IsStep setting view Self.made Self.last shown happened lender others (event.give_written key.0 life block (hand_of (view self.old) block) cells) self.old self.new }
        ensures room { Self.spare self.old ≤ Self.spare self.new + 1 };

    /// Gives the block in hand back with the mark of the next strike and with each cell complemented.
    fn give_struck(&mut self, key: Key, life: u32, block: u32, cells: BlockCells)
        requires can { CanGiveStruck (setting self.old) (view self.old) key.0 life block (hand_of (view self.old) block) cells }
        requires room { 1 ≤ Self.spare self.old }
        ensures step { IsStep setting view Self.made Self.last shown happened lender others (event.give_struck key.0 life block (hand_of (view self.old) block) cells) self.old self.new }
        ensures room { Self.spare self.old ≤ Self.spare self.new + 1 };

    /// Stops the table for all seats.
    fn stop(&mut self)
        ensures step { IsStep setting view Self.made Self.last shown happened lender others event.halt self.old self.new }
        ensures room { Self.spare self.new ≡ Self.spare self.old };

    // A claim or a look is such a step too, and the view could make it.
    ghost key_step: { (s t : Self) (row : ℕ) (claimed : Option ℕ) → Self.did s row claimed t → Can (setting s) (view s) (key_event row claimed) × IsStep setting view Self.made Self.last shown happened lender others (key_event row claimed) s t };

    // The key words are those of the table, and what their caller knows is what the view knows.
    ghost keys_are: { (s : Self) → Self.keys s ≡ (setting s).keys };

    ghost rows_are: { (s : Self) → Self.row_count s ≡ (setting s).shape.rows };

    ghost known_is: { (s : Self) (row : ℕ) → Self.known s row ≡ known_of (view s) row };

    ghost may_claim: { (s : Self) (key : ℕ) → Explores (setting s) (view s) key → Self.may s key };

    ghost claims_may: { (s : Self) (key : ℕ) → Self.may s key → Explores (setting s) (view s) key };

    ghost may_stand: { (s : Self) (key : ℕ) → Awaits (setting s) (view s) key → Self.stands s key };
}
