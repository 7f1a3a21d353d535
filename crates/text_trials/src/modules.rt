// Modules of foreign code: the replies that they give, and what is done to them.
use eh_outer::{Module, Once, Reply, Runs};
use foreign_host::{Host, NoModule};
use std::cell::Cell;
use std::rc::Rc;
use std::test::Fail;

// A module of one reply. It notes a digit for each call, cleanup and drop: 1, 2 and 3.
struct Noted {
    script: Once,
    notes: Rc<Cell<u32>>,
}

fn note(notes: &Cell<u32>, digit: u32) {
    notes.set(notes.get().wrapping_mul(10).wrapping_add(digit));
}

impl Drop for Noted {
    fn drop(self) {
        let Noted { script, notes } = self;
        drop(script);
        note(&notes, 3);
    }
}

impl Module for Noted {
    ghost view = { λ it. it.script.seen };

    ghost ints = { λ it. it.script.ints };

    fn call(&mut self, arg: i32) -> Reply {
        note(&self.notes, 1);
        self.script.call(arg)
    }

    fn cleanup(&mut self, token: u32) {
        note(&self.notes, 2);
        self.script.cleanup(token);
    }
}

#[test]
fn one_module_alone(rt: HostRuntime) -> Result<(), Fail> {
    let alloc = rt.alloc();
    let a = Rc::new(alloc, Cell::new(0))?;
    let b = Rc::new(alloc, Cell::new(0))?;
    let mut modules: Vec<Box<dyn Module>> = Vec::new(alloc);
    for (reply, notes) in [(Reply::Raise(7), &a), (Reply::Value(-5), &b)] {
        let noted = Noted {
            script: Once::new(alloc, vec![in alloc; reply]?)?,
            notes: notes.clone()?,
        };
        modules.push(Box::new(alloc, noted)?)?;
    }
    let mut host = Host::new(modules);
    assert_eq!(rt; host.call(0, 1), Ok(Reply::Raise(7)));
    assert_eq!(rt; host.call(2, 1), Err(NoModule));
    assert_eq!(rt; host.clean(2, 7), Err(NoModule));
    assert_eq!(rt; host.clean(0, 7), Ok(()));
    assert_eq!(rt; host.call(0, 1), Ok(Reply::Value(0)));
    assert_eq!(rt; (a.get(), b.get()), (121, 0));
    assert_eq!(rt; host.call(1, 1), Ok(Reply::Value(-5)));
    assert_eq!(rt; (a.get(), b.get()), (121, 1));
    host.close();
    assert_eq!(rt; (a.get(), b.get()), (1213, 13));
    Ok(())
}

#[test]
fn gives_each_reply_once(rt: HostRuntime) -> Result<(), Fail> {
    let alloc = rt.alloc();
    let replies = [Reply::Raise(7), Reply::Value(-5)];
    let mut once = Once::new(alloc, replies.to_vec(alloc)?)?;
    for want in [replies[0], replies[1], Reply::Value(0), Reply::Value(0)] {
        assert_eq!(rt; once.call(9), want);
    }
    Ok(())
}

#[test]
fn gives_each_reply_so_often(rt: HostRuntime) -> Result<(), Fail> {
    let alloc = rt.alloc();
    let runs = [
        (Reply::Value(5), 1),
        (Reply::Raise(9), 0),
        (Reply::Raise(7), 2),
    ];
    let mut module = Runs::new(alloc, runs.to_vec(alloc)?)?;
    for want in [
        Reply::Value(5),
        Reply::Raise(7),
        Reply::Raise(7),
        Reply::Value(0),
    ] {
        assert_eq!(rt; module.call(9), want);
    }
    Ok(())
}
