// The texts and statuses by which a server ends badly.
use cql_server::Failure;
use cql_wire::BrokenRule;
use std::alloc::Global;
use std::io::ErrorKind;
use std::net::Ipv4Addr;
use std::test::Fail;

const ENDINGS: &[(Failure, u8, &str)] = &[
    (Failure::NoSessions, 2, "audit needs sessions"),
    (Failure::Tenants, 2, "the tenants line is refused"),
    (
        Failure::Rule(BrokenRule::OneKey),
        2,
        "the tenants line is refused: it is no object with the one key tenants",
    ),
    (Failure::Reading, 3, "reading failed"),
    (Failure::Writing, 4, "writing failed"),
    (Failure::NoMemory, 5, "no memory"),
    (
        Failure::Listening {
            ip: Ipv4Addr::LOCALHOST,
            port: 7000,
            why: ErrorKind::AddrInUse,
        },
        6,
        "cannot listen at 127.0.0.1:7000: address in use",
    ),
    (Failure::Audit { at: 0 }, 7, "audit failed at 0"),
    (
        Failure::Audit {
            at: 18_446_744_073_709_551_616,
        },
        7,
        "audit failed at 18446744073709551616",
    ),
];

fn is_told(alloc: Global, failure: Failure, text: &str) -> Result<bool, Fail> {
    let told = format!(in alloc; "{failure}")?;
    Ok(told.as_str() == text)
}

// Most statuses want a fault of the system, and a failed audit one of the machine.
#[test]
fn each_failure_is_told(rt: HostRuntime) -> Result<(), Fail> {
    for (failure, status, text) in ENDINGS {
        assert_eq!(rt; failure.status(), *status);
        assert!(rt; is_told(rt.alloc(), *failure, text)?);
    }
    Ok(())
}
