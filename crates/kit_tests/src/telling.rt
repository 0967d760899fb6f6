// A remote that says how far it is while it is called, over a sink that writes down what it is asked for and when.
ghost use Rattle.std.specs.Prelude.{◌≡◌, [], None, true, IfOk, IsTrue};
ghost use Rattle.ann_key.specs.KeyRefs.{text_of};
ghost use Rattle.annex_model.specs.Messages.{is_sent_key};
ghost use Rattle.kit_serve.specs.Kit.Calls.{is_line_said};

use ann_key::{Bytes, KeyRef, NoMemory};
use ann_outside::{Failed, MemSource, Sink, Source};
use kit_serve::kit::{Remote, Said, Values};
use kit_serve::{Mouth, NotTold, Teller, serve, share};
use std::alloc::Global;
use std::process::Abort;
use std::sync::{Arc, Mutex, Wait};
use std::test::Fail;

type Log = Arc<Mutex<Vec<u8>>, Global>;

// Notes the bytes, and a `|` for each flush. The write of that number fails, from 1.
#[derive(Drop)]
struct LogSink<'a, T> {
    rt: &'a T,
    log: Log,
    writes: u64,
    fails: u64,
    faults: u64,
    is_open: bool,
}

impl<'a, T> LogSink<'a, T> {
    fn new(rt: &'a T, log: Log, fails: u64) -> LogSink<'a, T>
        ensures { result.is_open ≡ true }
    {
        LogSink {
            rt,
            log,
            writes: 0,
            fails,
            faults: 0,
            is_open: true,
        }
    }
}

fn noted(rt: &impl Wait, log: &Log, piece: &[u8]) -> bool {
    log.lock(rt).extend_from_slice(piece).is_ok()
}

impl<'a, T: Wait> Sink for LogSink<'a, T> {
    ghost told = { λ s. record { faults = s.faults; taken = None; is_open = s.is_open; number = None } };

    fn write(&mut self, piece: &[u8]) -> Result<usize, Failed> {
        self.writes = self.writes.saturating_add(1);
        if self.writes != self.fails && noted(self.rt, &self.log, piece) {
            return Ok(piece.len());
        }
        self.faults = self.faults.saturating_add(1);
        Err(Failed)
    }

    fn flush(&mut self) -> Result<(), Failed> {
        if noted(self.rt, &self.log, b"|") {
            return Ok(());
        }
        self.faults = self.faults.saturating_add(1);
        Err(Failed)
    }

    fn close(&mut self) {
        self.is_open = false;
    }
}

// Notes a `<` and a `>` round what it says in a call.
#[derive(Drop)]
struct Talker<'a, T, W: Mouth> {
    rt: &'a T,
    log: Log,
    teller: Teller<'a, T, W>,
}

impl<'a, T: Wait, W: Mouth> Talker<'a, T, W> {
    fn tell_all(&mut self, key: KeyRef<'_>) -> Result<(), NotTold>
        requires { IsTrue (is_sent_key (text_of key)) }
    {
        self.teller.progress(1)?;
        self.teller.debug(b"half\nway")?;
        self.teller.info(b"")?;
        self.teller.set_state(key, b"s t\n")?;
        self.teller.set_url_present(key, b"http://x")?;
        self.teller.set_config(b"name", b"a value")?;
        self.teller.progress(18_446_744_073_709_551_615)
    }

    fn answer(&mut self, key: KeyRef<'_>) -> Said
        requires { IsTrue (is_sent_key (text_of key)) }
        ensures { IsTrue (is_line_said result) }
    {
        noted(self.rt, &self.log, b"<");
        let told = self.tell_all(key);
        noted(self.rt, &self.log, b">");
        if told.is_ok() { Said::Yes } else { Said::No }
    }
}

impl<'a, T: Wait, W: Mouth> Remote for Talker<'a, T, W> {
    ghost settings = { λ _. [] };

    ghost calls = { λ _. None };

    fn setting(&self, _n: u32) -> Option<&str> {
        None
    }

    fn prepare(&mut self, _values: &Values) -> Result<Said, NoMemory> {
        Ok(Said::Yes)
    }

    fn initialize(&mut self, _values: &Values) -> Result<Said, NoMemory> {
        Ok(Said::No)
    }

    fn store(&mut self, key: KeyRef<'_>, _file: &str) -> Result<Said, NoMemory> {
        Ok(self.answer(key))
    }

    fn retrieve(&mut self, key: KeyRef<'_>, _file: &str) -> Result<Said, NoMemory> {
        Ok(self.answer(key))
    }

    fn check(&mut self, key: KeyRef<'_>) -> Result<Said, NoMemory> {
        Ok(self.answer(key))
    }

    fn remove(&mut self, _key: KeyRef<'_>) -> Result<Said, NoMemory> {
        Ok(Said::Yes)
    }
}

// A line that spells no message, and requests, for a remote with no settings.
fn asked(alloc: Global) -> Result<MemSource, NoMemory>
    ensures { IfOk result (λ s. (⟦<MemSource as Source>⟧.told s).is_open ≡ true) }
{
    let mut lines = Vec::new(alloc);
    let said = b"INITREMOTE\nCLAIMURL x\nPREPARE\nTRANSFER STORE WORM--a f\n";
    lines.push(Bytes::copy(alloc, said)?)?;
    Ok(MemSource::new(lines, Vec::new(alloc)))
}

// The write that fails, the status, and what is noted. 0: no write fails.
type Row = (u64, u8, &'static [u8]);

static ROWS: [Row; 2] = [
    (
        0,
        0,
        b"VERSION 1\n|INITREMOTE-FAILURE \n|UNSUPPORTED-REQUEST\n|PREPARE-SUCCESS\n|<PROGRESS 1\n|DEBUG half\n|INFO \n|SETSTATE WORM--a s t\n|\
          SETURLPRESENT WORM--a http://x\n|SETCONFIG name a value\n|PROGRESS 18446744073709551615\n|\
          >TRANSFER-SUCCESS STORE WORM--a\n|",
    ),
    (
        6,
        5,
        b"VERSION 1\n|INITREMOTE-FAILURE \n|UNSUPPORTED-REQUEST\n|PREPARE-SUCCESS\n|<PROGRESS 1\n|>",
    ),
];

#[test]
fn what_is_told_goes_out_in_the_call_and_nothing_follows_a_failed_write(
    rt: HostRuntime,
) -> Result<(), Fail> {
    let alloc = rt.alloc();
    for (fails, status, noted) in &ROWS {
        let mut source = asked(alloc)?;
        let log = Arc::new(alloc, Mutex::new(Vec::new(alloc)))?;
        let sink = LogSink::new(&rt, Arc::try_clone(&log)?, *fails);
        let (mut half, teller) = share(&rt, alloc, sink)?;
        let talker = Talker {
            rt: &rt,
            log: Arc::try_clone(&log)?,
            teller,
        };
        let served = serve(alloc, talker, &mut source, &mut half);
        assert_eq!(rt; served.status, *status);
        drop(served);
        drop(half);
        assert!(rt; log.lock(&rt).as_slice() == *noted);
    }
    Ok(())
}
