// Calls that answer what fails and leave it to their caller to tell: the commands have forms of them that tell it.
use answers::Accepted;
use command_files::fault::Fault;
use command_files::system::open_read;
use command_files::{Input, read, replace};
use command_proofs::compare::compare_sheet;
use field::{Ext, Field};
use step::Frac;

#[test]
fn replaces(rt: HostRuntime) {
    assert!(rt; replace(&rt, b"kept", b"first").is_ok());
    assert!(rt; replace(&rt, b"kept", b"second").is_ok());
    let mut bytes = [0u8; 8];
    let whole = matches!(read(&rt, b"kept", &mut bytes), Ok(Input::Whole(6)));
    assert!(rt; whole);
    assert!(rt; bytes == *b"second\0\0");
}

// The folder itself cannot be replaced; the file that was to take its name is gone again.
#[test]
fn answers_what_failed(rt: HostRuntime) {
    let failed = matches!(
        replace(&rt, b".", b""),
        Err(Fault::Failed { path: b".", .. })
    );
    assert!(rt; failed);
    assert!(rt; open_read(&rt, b"..000000").is_err());
}

// No rows have the claims 0/1.
#[test]
fn compares(rt: HostRuntime) {
    let accepted = Accepted {
        stated: Frac {
            p: Ext::ZERO,
            q: Ext::ONE,
        },
        point: &[],
        rounds: 0,
    };
    assert!(rt; replace(&rt, b"none.sheet", &[1, 0, 0]).is_ok());
    assert!(rt; compare_sheet(&rt, b"none.sheet", accepted).is_ok());
    assert!(rt; compare_sheet(&rt, b"", accepted).is_ok());
    let failed = matches!(
        compare_sheet(&rt, b"nowhere", accepted),
        Err(Fault::Failed {
            path: b"nowhere",
            ..
        })
    );
    assert!(rt; failed);
}
