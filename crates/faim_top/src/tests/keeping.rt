// A configuration and an entry through their spellings and a journal, and back.
use super::{ALPHA, BETA, HOST, bytes, text_of};
use entry_codec::{read_config, read_entry, spell_config, spell_entry};
use faim_base::{Bytes, Places};
use site_core::{MemSite, Site};
use std::alloc::Global;
use std::test::Fail;
use torn_journal::{Visit, VisitFault, create, frame_payload, resume};
use world_text::{read_config_text, read_script};

// The configuration of HOST, ALPHA and BETA.
const CONFIG: &[u8] =
    b"CT\0\0\x22\x3f\x05\xa0\x05\xa0\0\x02021000021BANKA001\0\0\0\0\0\x0f\x42\x40\0\0\0\0\0\0\0\0121042882BANKB001\0\0\0\0\0\0\0\0\0\0\0\0\0\0\0\0";

// A message of 1,500.00 from the first account to the second, taken at 09:30 of 2024-01-02.
const ENTRY: &[u8] =
    b"P\0\0\x22\x3fBANKA001\0\0\0\x01021000021121042882BTR\x0a\0\0\0\0\0\0\x02\x49\xf0\0\0\xc0\xa4\x9a\x01BANKB001\0\0\0\x01\0\x86{1500}30USERREQ1T {1510}1000{1520}20240102BANKA001000001{2000}000000150000{3100}021000021ALPHA BANK*{3400}121042882BETA BANK*{3600}BTR";

// Takes every payload, and keeps it.
#[derive(Debug, Drop)]
struct Payloads {
    alloc: Global,
    seen: Vec<Bytes>,
}

impl Visit for Payloads {
    ghost stands = { λ visit payloads. Unit {0} };

    ghost follows = { λ payloads payload. Unit {0} };

    fn take(&mut self, payload: &[u8]) -> Result<(), VisitFault> {
        match bytes(self.alloc, payload) {
            Ok(copy) => match self.seen.push(copy) {
                Ok(()) => Ok(()),
                Err(_) => Err(VisitFault::NoMemory),
            },
            Err(_) => Err(VisitFault::NoMemory),
        }
    }
}

#[test]
fn texts_have_the_configuration_of_these_bytes(rt: HostRuntime) -> Result<(), Fail> {
    let alloc = rt.alloc();
    let text = text_of(alloc, &[HOST, ALPHA, BETA, "begin"])?;
    let script = read_script(alloc, text.as_slice())?;
    let mut spelled = Vec::new(alloc);
    spell_config(&script.config, &mut spelled)?;
    assert!(rt; spelled.as_slice() == CONFIG);
    let text = text_of(alloc, &[HOST, ALPHA, BETA])?;
    let config = read_config_text(alloc, text.as_slice())?;
    let mut spelled = Vec::new(alloc);
    spell_config(&config, &mut spelled)?;
    assert!(rt; spelled.as_slice() == CONFIG);
    Ok(())
}

#[test]
fn a_configuration_and_an_entry_come_back_from_a_journal(rt: HostRuntime) -> Result<(), Fail> {
    let alloc = rt.alloc();
    let mut site = MemSite::new(alloc, Places::new(alloc));
    let mut journal = create(alloc, &mut site, CONFIG).ok().ok_or("a journal")?;
    assert!(rt; site.size() == Ok(100));
    let mut framed = Vec::new(alloc);
    frame_payload(ENTRY, &mut framed)?;
    assert!(rt; journal.append(&mut site, &framed) == Ok(()));
    assert!(rt; site.size() == Ok(307));
    let mut visit = Payloads {
        alloc,
        seen: Vec::new(alloc),
    };
    assert!(rt; resume(alloc, &mut site, &mut visit).is_ok());
    match visit.seen.as_slice() {
        [opening, record] => {
            let config = read_config(alloc, opening.as_slice())
                .ok()
                .ok_or("a configuration")?;
            assert!(rt; config.accounts.as_slice().len() == 2);
            let (entry, count) = read_entry(alloc, record.as_slice()).ok().ok_or("an entry")?;
            assert!(rt; count == 202);
            let mut spelled = Vec::new(alloc);
            spell_entry(&entry, &mut spelled)?;
            assert!(rt; spelled.as_slice() == ENTRY);
        }
        _ => assert!(rt; false),
    }
    Ok(())
}
