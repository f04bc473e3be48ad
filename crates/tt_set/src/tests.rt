//! Texts of attributes, with the settings or the wrong name that each gives.
use crate::{SetRefusal, Settings, read_settings};
use std::process::Abort;
use std::test::Fail;

const DEFAULTS: Settings = Settings {
    durable_commits: false,
    log_file_size: 67_108_864,
    log_buf_size: 65_536,
    perm_pages: 1_024,
    ckpt_pages: 8,
    database: 1,
};

// Asserts that the text is refused with this name.
fn expect_refused(rt: &impl Abort, answer: Result<Settings, SetRefusal>, name: &str) {
    match answer {
        Err(SetRefusal::Bad { name: found }) => {
            assert_eq!(rt; found.as_str(), name);
        }
        _ => {
            assert!(rt; false);
        }
    }
}

#[test]
fn texts_give_settings_or_the_first_wrong_name(rt: HostRuntime) -> Result<(), Fail> {
    let taken = [
        ("", DEFAULTS),
        ("DurableCommits = 0", DEFAULTS),
        (
            "DurableCommits = 1",
            Settings {
                durable_commits: true,
                ..DEFAULTS
            },
        ),
        (
            "LogFileSize = 8192",
            Settings {
                log_file_size: 8_192,
                ..DEFAULTS
            },
        ),
        ("LogFileSize = 67108864", DEFAULTS),
        (
            "LogBufSize = 4096",
            Settings {
                log_buf_size: 4_096,
                ..DEFAULTS
            },
        ),
        (
            "LogBufSize = 1048576",
            Settings {
                log_buf_size: 1_048_576,
                ..DEFAULTS
            },
        ),
        (
            "PermPages = 1",
            Settings {
                perm_pages: 1,
                ..DEFAULTS
            },
        ),
        (
            "PermPages = 65536",
            Settings {
                perm_pages: 65_536,
                ..DEFAULTS
            },
        ),
        (
            "CkptPages = 1",
            Settings {
                ckpt_pages: 1,
                ..DEFAULTS
            },
        ),
        (
            "CkptPages = 256",
            Settings {
                ckpt_pages: 256,
                ..DEFAULTS
            },
        ),
        ("Database = 1", DEFAULTS),
        (
            "Database = 4294967295",
            Settings {
                database: 4_294_967_295,
                ..DEFAULTS
            },
        ),
        (
            "PermPages = 0x10 # sixteen",
            Settings {
                perm_pages: 16,
                ..DEFAULTS
            },
        ),
        (
            "Database = 7\r\nPermPages = 1_0",
            Settings {
                perm_pages: 10,
                database: 7,
                ..DEFAULTS
            },
        ),
    ];
    for (text, wanted) in taken {
        match read_settings(rt.alloc(), text.as_bytes()) {
            Ok(settings) => assert_eq!(rt; settings, wanted),
            Err(_) => assert!(rt; false),
        }
    }
    let refused = [
        ("DurableCommits = -1", "DurableCommits"),
        ("DurableCommits = 2", "DurableCommits"),
        ("LogFileSize = 8191", "LogFileSize"),
        ("LogFileSize = 67108865", "LogFileSize"),
        ("LogBufSize = 4095", "LogBufSize"),
        ("LogBufSize = 1048577", "LogBufSize"),
        ("PermPages = 0", "PermPages"),
        ("PermPages = 65537", "PermPages"),
        ("CkptPages = 0", "CkptPages"),
        ("CkptPages = 257", "CkptPages"),
        ("Database = 0", "Database"),
        ("Database = 4294967296", "Database"),
        (
            "PermPages = 0\nDatabase = 5\nCkptPages = 0\nZeal = 1",
            "CkptPages",
        ),
        ("permPages = 8", "permPages"),
        ("PermPages.most = 8", "PermPages"),
        ("[Database]", "Database"),
        ("DurableCommits = true", "DurableCommits"),
        ("CkptPages = 1.0", "CkptPages"),
        ("CkptPages = [8]", "CkptPages"),
        ("CkptPages = \"8\"", "CkptPages"),
        ("CkptPages = 9223372036854775807", "CkptPages"),
        ("CkptPages = 9223372036854775808", ""),
        ("CkptPages = 8\nCkptPages = 8", ""),
        ("CkptPages 8", ""),
    ];
    for (text, name) in refused {
        expect_refused(&rt, read_settings(rt.alloc(), text.as_bytes()), name);
    }
    expect_refused(&rt, read_settings(rt.alloc(), &[35, 255]), "");
    let mut longest = vec![in rt.alloc(); b'#'; 65_536]?;
    assert_eq!(rt;
        read_settings(rt.alloc(), longest.as_slice()).ok(),
        Some(DEFAULTS)
    );
    longest.push(b'#')?;
    expect_refused(&rt, read_settings(rt.alloc(), longest.as_slice()), "");
    Ok(())
}
