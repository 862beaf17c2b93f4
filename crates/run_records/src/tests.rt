use crate::{cause_text, report, sorted};
use graph_model::{Cause, Found, Hit, Key, Record};
use std::test::Fail;

const LIFE: u32 = 1;

fn created(key: u64) -> Record {
    Record::Created { key: Key(key) }
}

fn spent(key: u64, place: u32) -> Record {
    let key = Key(key);
    let life = LIFE;
    Record::Spent { key, life, place }
}

fn computed(key: u64) -> Record {
    let key = Key(key);
    Record::Computed { key, life: LIFE }
}

fn written(key: u64, block: u32) -> Record {
    Record::Written {
        key: Key(key),
        life: LIFE,
        block,
        version: 1,
    }
}

fn closed(key: u64) -> Record {
    Record::Closed {
        key: Key(key),
        life: LIFE,
        word: 0,
    }
}

fn struck(hit: Hit) -> Record {
    let key = Key(1);
    Record::Struck { key, life: 2, hit }
}

fn replaced(life: u32, cause: Cause) -> Record {
    let key = Key(1);
    Record::Replaced { key, life, cause }
}

fn read_badly(version: u32, found: Found) -> Cause {
    Cause::Block {
        block: 0,
        version,
        found,
    }
}

#[test]
fn a_run_without_faults(rt: HostRuntime) -> Result<(), Fail> {
    // What each task's steps left, by the last task first.
    let records = [
        closed(4),
        written(4, 3),
        computed(4),
        spent(4, 40),
        spent(4, 1),
        spent(4, 0),
        created(4),
        closed(3),
        closed(2),
        written(3, 2),
        written(2, 1),
        computed(3),
        computed(2),
        spent(3, 40),
        spent(2, 40),
        spent(3, 0),
        spent(2, 0),
        closed(1),
        written(1, 0),
        computed(1),
        spent(1, 40),
        created(1),
        created(3),
        created(2),
    ];
    let text = report(rt.alloc(), &[-4], &records, true)?;
    let lines =
        b"value -4\ncreated 1\nspent 1 life 1 self\ncomputed 1 life 1\nwritten 1 life 1 block 0 version 1\nclosed 1 life 1 word 0\ncreated 2\nspent 2 life 1 place 0\nspent 2 life 1 self\ncomputed 2 life 1\nwritten 2 life 1 block 1 version 1\nclosed 2 life 1 word 0\ncreated 3\nspent 3 life 1 place 0\nspent 3 life 1 self\ncomputed 3 life 1\nwritten 3 life 1 block 2 version 1\nclosed 3 life 1 word 0\ncreated 4\nspent 4 life 1 place 0\nspent 4 life 1 place 1\nspent 4 life 1 self\ncomputed 4 life 1\nwritten 4 life 1 block 3 version 1\nclosed 4 life 1 word 0\n";
    assert!(rt; text.as_slice() == lines.as_slice());
    let short = report(rt.alloc(), &[7], &records, false)?;
    assert!(rt; short.as_slice() == b"value 7\n".as_slice());
    Ok(())
}

#[test]
fn every_kind_in_the_order_of_print(rt: HostRuntime) -> Result<(), Fail> {
    let records = [
        created(10),
        replaced(2, read_badly(3, Found::Other { version: 4 })),
        replaced(2, read_badly(3, Found::Other { version: 0 })),
        replaced(2, read_badly(3, Found::Struck { version: 3 })),
        replaced(2, read_badly(2, Found::Other { version: 9 })),
        replaced(2, Cause::Notify),
        replaced(2, Cause::Descriptor),
        struck(Hit::Block {
            block: 0,
            version: 3,
        }),
        struck(Hit::Notify { word: 10 }),
        struck(Hit::Notify { word: 9 }),
        struck(Hit::Descriptor),
        replaced(1, Cause::Descriptor),
        closed(1),
        written(1, 0),
        computed(1),
        spent(1, 40),
        spent(1, 9),
        spent(1, 10),
        computed(1),
        created(1),
    ];
    let text = report(rt.alloc(), &[0], &records, true)?;
    let lines =
        b"value 0\ncreated 1\nspent 1 life 1 place 9\nspent 1 life 1 place 10\nspent 1 life 1 self\ncomputed 1 life 1\ncomputed 1 life 1\nwritten 1 life 1 block 0 version 1\nclosed 1 life 1 word 0\nreplaced 1 life 1 because descriptor\nstruck 1 life 2 descriptor\nstruck 1 life 2 notify 9\nstruck 1 life 2 notify 10\nstruck 1 life 2 block 0 version 3\nreplaced 1 life 2 because descriptor\nreplaced 1 life 2 because notify\nreplaced 1 life 2 because block 0 version 2 found 9\nreplaced 1 life 2 because block 0 version 3 struck\nreplaced 1 life 2 because block 0 version 3 found 0\nreplaced 1 life 2 because block 0 version 3 found 4\ncreated 10\n";
    assert!(rt; text.as_slice() == lines.as_slice());
    let list = sorted(rt.alloc(), &records)?;
    assert!(rt; list.len() == records.len());
    let why = cause_text(rt.alloc(), &Cause::Notify)?;
    assert!(rt; why.as_slice() == b"notify".as_slice());
    Ok(())
}
