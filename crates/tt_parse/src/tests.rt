use crate::{Command, Cond, LineKind, Op, Operand, parse_line, print};
use std::alloc::Global;
use std::process::Abort;
use std::test::Fail;
use tt_value::{List, Refusal, Value};

fn name_of(command: &Command) -> &'static str {
    match command {
        Command::CreateTable { .. } => "create table",
        Command::DropTable { .. } => "drop table",
        Command::CreateIndex { .. } => "create index",
        Command::DropIndex { .. } => "drop index",
        Command::Insert { .. } => "insert",
        Command::Update { .. } => "update",
        Command::Delete { .. } => "delete",
        Command::Select { .. } => "select",
        Command::Commit => "commit",
        Command::Rollback => "rollback",
        Command::DurableCommit => "durable commit",
        Command::Flush => "flush",
        Command::Ckpt => "checkpoint",
        Command::CkptBlocking => "blocking checkpoint",
        Command::LogHolds => "log holds",
        Command::Bookmark => "bookmark",
        Command::Backup { .. } => "backup",
        Command::XlaCreate { .. } => "create bookmark",
        Command::XlaDelete { .. } => "delete bookmark",
        Command::XlaSubscribe { .. } => "subscribe",
        Command::XlaUnsubscribe { .. } => "unsubscribe",
        Command::XlaOpen { .. } => "open reader",
        Command::XlaNext { .. } => "next update",
        Command::XlaAcknowledge => "acknowledge",
        Command::XlaClose => "close reader",
    }
}

/// What a line gives in a word, its session, and its offset if it is off the grammar.
fn outcome(rt: &impl Abort, alloc: Global, line: &[u8]) -> (&'static str, u8, u32) {
    match parse_line(alloc, line) {
        LineKind::Skip => ("skipped", 0, 0),
        LineKind::Run { session, what } => match what {
            Ok(command) => (name_of(&command), session, 0),
            Err(Refusal::Syntax { at }) => ("off", session, at),
            Err(_) => ("no memory", session, 0),
        },
    }
}

#[test]
fn lines_of_the_grammar(rt: HostRuntime) {
    for (line, session, want) in [
        (
            "create table t (k bigint, primary key (k))",
            1,
            "create table",
        ),
        (
            "CREATE TABLE _t1(a varchar(1)not null,b varchar ( 0200 ) , c number(18,0) not null, d number(18,18), primary key(a,b));",
            1,
            "create table",
        ),
        ("drop table t", 1, "drop table"),
        ("create index i on t (a)", 1, "create index"),
        ("create unique index i on t(a,b)", 1, "create index"),
        ("drop index i", 1, "drop index"),
        ("insert into t values (1)", 1, "insert"),
        (
            "@2 insert into t values (null, -9223372036854775808, - 9223372036854775807, 9223372036854775807)",
            2,
            "insert",
        ),
        (
            "insert into t values(007, 0.000000000000000001, -92233720368547758.08, 92233720368547758.07, '', 'it''s', 'é')",
            1,
            "insert",
        ),
        ("update t set a = 1", 1, "update"),
        (
            "update t set a=b,c=d+1,e=f-2.5,g='x',h=null,i=-1,j=k-0 where not a is not null",
            1,
            "update",
        ),
        ("delete from t", 1, "delete"),
        (
            "delete from t where a = 1 and (b <> 'x' or not c >= d) or e is null;",
            1,
            "delete",
        ),
        ("select * from t", 1, "select"),
        (
            "select a, b from t where a<1 and b<=2 and c>null order by a desc, b asc, c ;",
            1,
            "select",
        ),
        (
            "select count(*), sum(a), count ( * ) from t where a = b",
            1,
            "select",
        ),
        ("select sum(a) from t", 1, "select"),
        ("commit", 1, "commit"),
        ("@1commit", 1, "commit"),
        ("@ 064 CoMMiT;", 64, "commit"),
        ("rollback", 1, "rollback"),
        ("flush", 1, "flush"),
        ("ttDurableCommit", 1, "durable commit"),
        ("ttCkpt", 1, "checkpoint"),
        ("ttckpt", 1, "checkpoint"),
        ("ttCkptBlocking", 1, "blocking checkpoint"),
        ("\t ttLogHolds \t", 1, "log holds"),
        ("TTBOOKMARK", 1, "bookmark"),
        ("ttBackup 1fileFull", 1, "backup"),
        ("ttBackup 999 fileFullEnable", 1, "backup"),
        ("ttBackup 0001 fileIncremental", 1, "backup"),
        ("ttBackup 2 fileIncrOrFull", 1, "backup"),
        ("ttBackup 2 incrementalstop", 1, "backup"),
        ("ttXlaBookmarkCreate b", 1, "create bookmark"),
        ("ttXlaBookmarkDelete b", 1, "delete bookmark"),
        ("ttXlaSubscribe t b", 1, "subscribe"),
        ("ttXlaUnsubscribe t b", 1, "unsubscribe"),
        ("ttXlaOpen b", 1, "open reader"),
        ("ttXlaNextUpdate 1", 1, "next update"),
        ("ttXlaNextUpdate 1000", 1, "next update"),
        ("ttXlaAcknowledge", 1, "acknowledge"),
        ("ttXlaClose", 1, "close reader"),
        ("drop table flush", 1, "drop table"),
        ("select tables, ttCkpt from asc1", 1, "select"),
        ("drop table a23456789012345678901234567890", 1, "drop table"),
        ("", 0, "skipped"),
        (" \t ", 0, "skipped"),
        ("-- x", 0, "skipped"),
        (" - - 'x", 0, "skipped"),
    ] {
        assert_eq!(rt;
            outcome(&rt, rt.alloc(), line.as_bytes()),
            (want, session, 0),
            "{line}"
        );
    }
}

/// The line without its `^`, and the offset at which that stood.
fn marked(alloc: Global, text: &[u8]) -> Result<(Vec<u8>, usize), Fail> {
    let at = text.iter().position(|b| *b == b'^').unwrap_or(0);
    let mut line = Vec::new(alloc);
    for b in text {
        if *b != b'^' {
            line.push(*b)?;
        }
    }
    Ok((line, at))
}

/// In each line `^` stands before the first token with which no line goes on, or at the end.
fn expect_off(rt: &impl Abort, alloc: Global, lines: &[&str]) -> Result<(), Fail> {
    for text in lines {
        let (line, at) = marked(alloc, text.as_bytes())?;
        let (word, _, offset) = outcome(rt, alloc, line.as_slice());
        assert_eq!(rt; (word, offset as usize), ("off", at), "{text}");
    }
    Ok(())
}

#[test]
fn definitions_off_the_grammar(rt: HostRuntime) -> Result<(), Fail> {
    expect_off(
        &rt,
        rt.alloc(),
        &[
            "create^",
            "create ^t",
            "create table ^1",
            "create table ^select (",
            "create table ^a234567890123456789012345678901 (",
            "create table t ^k",
            "create table t (^)",
            "create table t (^primary key (k))",
            "create table t (k ^int",
            "create table t (k bigint^)",
            "create table t (k bigint ^null",
            "create table t (k bigint not ^, primary key (k))",
            "create table t (k bigint not null ^null, primary key (k))",
            "create table t (k bigint, ^)",
            "create table t (k bigint, primary ^(k))",
            "create table t (k bigint, primary key ^k)",
            "create table t (k bigint, primary key (^)",
            "create table t (k bigint, primary key (k ^j))",
            "create table t (k bigint, primary key (k^",
            "create table t (k bigint, primary key (k)^",
            "create table t (k bigint, primary key (k)^, j bigint)",
            "create table t (k bigint, primary key (k)) ^x",
            "create table t (k bigint ^primary key (k))",
            "create table t (k varchar^, primary key (k))",
            "create table t (k varchar(^0), primary key (k))",
            "create table t (k varchar(^201), primary key (k))",
            "create table t (k varchar(^1.0), primary key (k))",
            "create table t (k varchar(^x), primary key (k))",
            "create table t (k varchar(1^, primary key (k))",
            "create table t (k number^, primary key (k))",
            "create table t (k number(^018,2), primary key (k))",
            "create table t (k number(^17,2), primary key (k))",
            "create table t (k number(18^), primary key (k))",
            "create table t (k number(18,^19), primary key (k))",
            "create table t (k number(18,2^, primary key (k))",
            "create unique ^table t",
            "create unique^",
            "create index ^on t (a)",
            "create index i ^t",
            "create index i on ^(",
            "create index i on t ^a",
            "create index i on t (a ^b)",
            "create index i on t (a,^)",
            "drop^",
            "drop ^t",
            "drop ^unique",
            "drop table ^index",
            "drop index^",
            "drop table t ^(",
        ],
    )
}

#[test]
fn changes_off_the_grammar(rt: HostRuntime) -> Result<(), Fail> {
    expect_off(
        &rt,
        rt.alloc(),
        &[
            "insert ^t",
            "insert into ^values",
            "insert into t ^(1)",
            "insert into t values ^1",
            "insert into t values (^)",
            "insert into t values (1 ^2)",
            "insert into t values (1,^)",
            "insert into t values (^x)",
            "insert into t values (^+1)",
            "insert into t values (- ^'x')",
            "insert into t values (-^-1)",
            "insert into t values (- ^null)",
            "insert into t values (^9223372036854775808)",
            "insert into t values (-^9223372036854775809)",
            "insert into t values (^92233720368547758.08)",
            "insert into t values (-^92233720368547758.09)",
            "insert into t values (^18446744073709551616)",
            "insert into t values (^0.0000000000000000001)",
            "insert into t values (1^.)",
            "insert into t values (1.5^.5)",
            "insert into t values (^.5)",
            "insert into t values (1^x)",
            "insert into t values ('a' ^'b')",
            "insert into t values ('a^",
            "insert into t values ('a''^",
            "insert into t values ('é^",
            "insert into t values (null^",
            "insert into t values (1)^)",
            "update ^set",
            "update t ^a",
            "update t set ^= 1",
            "update t set a ^1",
            "update t set a ^is null",
            "update t set a = ^",
            "update t set a = ^where",
            "update t set a = b ^* 2",
            "update t set a = b + ^-1",
            "update t set a = b + ^c",
            "update t set a = b + ^'x'",
            "update t set a = b - ^null",
            "update t set a = b - ^9223372036854775808",
            "update t set a = b + 1 ^+ 1",
            "update t set a = 1 ^+ 1",
            "update t set a = null ^- 1",
            "update t set a = 1, ^",
            "update t set a = 1 where^",
            "update t set a = 1 ^order by a",
            "delete ^t",
            "delete from ^where",
            "delete from t ^a = 1",
            "delete from t where ^1 = a",
            "delete from t where a ^b",
            "delete from t where a is ^1",
            "delete from t where a is not ^1",
            "delete from t where a = ^",
            "delete from t where a = ^and",
            "delete from t where a = 1 ^b = 2",
            "delete from t where a = 1 ^+ 1",
            "delete from t where (a = 1^",
            "delete from t where (a = 1 ^;",
            "delete from t where (^)",
            "delete from t where a = 1^)",
            "delete from t where not ^1",
            "delete from t where a = 1 and ^or b = 2",
            "delete from t where a = 1 or ^and b = 2",
            "delete from t where a = ^(1)",
            "delete from t where a ^!= 1",
            "delete from t where a < ^> 1",
            "delete from t where a <> ^= 1",
            "delete from t where a =^= 1",
            "delete from t where a = -^b",
        ],
    )
}

#[test]
fn other_commands_off_the_grammar(rt: HostRuntime) -> Result<(), Fail> {
    expect_off(
        &rt,
        rt.alloc(),
        &[
            "select ^from t",
            "select * ^form kv",
            "select *^, a from t",
            "select a, ^* from t",
            "select a ^b from t",
            "select a, ^count(*) from t",
            "select count ^* from t",
            "select count(^a) from t",
            "select count(*^, a) from t",
            "select count(*), ^a from t",
            "select sum ^a from t",
            "select sum(^*) from t",
            "select sum(a^, b) from t",
            "select count(*) ^t",
            "select count(*) from ^1",
            "select count(*) from t ^order by a",
            "select * from ^",
            "select * from t ^t",
            "select * from t order ^a",
            "select * from t order by ^",
            "select * from t order by ^desc",
            "select * from t order by a asc ^desc",
            "select * from t order by a, ^",
            "select * from t order by a ^where a = 1",
            "select ^é from t",
            "ttBackup^",
            "ttBackup ^fileFull",
            "ttBackup ^0 fileFull",
            "ttBackup ^1000 fileFull",
            "ttBackup ^18446744073709551617 fileFull",
            "ttBackup ^-1 fileFull",
            "ttBackup ^1.0 fileFull",
            "ttBackup 1 ^full",
            "ttBackup 1 ^",
            "ttBackup 1 fileFull ^x",
            "ttXlaBookmarkCreate^",
            "ttXlaBookmarkCreate ^select",
            "ttXlaBookmarkDelete ^1",
            "ttXlaSubscribe^",
            "ttXlaSubscribe t^",
            "ttXlaSubscribe t b ^c",
            "ttXlaUnsubscribe ^1 b",
            "ttXlaUnsubscribe t ^1",
            "ttXlaOpen ^(",
            "ttXlaNextUpdate^",
            "ttXlaNextUpdate ^0",
            "ttXlaNextUpdate ^1001",
            "ttXlaNextUpdate ^x",
            "ttXlaAcknowledge ^x",
            "ttXlaClose ^1",
            "^kv",
            "^;",
            "^1",
            "^'x",
            "^- x",
            "^-",
            "@^",
            "@^x",
            "@^0 commit",
            "@^65 commit",
            "@^1.5 commit",
            "@1^",
            "@1 ^@1 commit",
            "@1 ^-- x",
            "commit ^commit",
            "commit;^;",
            "commit ; ^x",
            "commit^\r",
            "commit^\u{b}",
        ],
    )
}

#[test]
fn sessions_of_lines_off_the_grammar(rt: HostRuntime) {
    for (line, session, at) in [
        (b"@7 kv".as_slice(), 7, 3),
        (b"@7".as_slice(), 7, 2),
        (b"@65 kv".as_slice(), 1, 1),
        (b"kv @7".as_slice(), 1, 0),
        (b"@7 commit \xff".as_slice(), 1, 10),
        (b"@65 \xc3\x28".as_slice(), 1, 4),
        (b"kv \xe2\x82".as_slice(), 1, 3),
    ] {
        assert_eq!(rt; outcome(&rt, rt.alloc(), line), ("off", session, at));
    }
    assert_eq!(rt; outcome(&rt, rt.alloc(), b"--\xff"), ("skipped", 0, 0));
}

fn repeated(
    alloc: Global,
    front: &[u8],
    part: &[u8],
    count: usize,
    back: &[u8],
) -> Result<Vec<u8>, Fail> {
    let mut line = Vec::from_slice(alloc, front)?;
    for _ in 0..count {
        line.extend_from_slice(part)?;
    }
    line.extend_from_slice(back)?;
    Ok(line)
}

#[test]
fn sixty_four_levels_and_the_longest_lines(rt: HostRuntime) -> Result<(), Fail> {
    let alloc = rt.alloc();
    let nots = repeated(alloc, b"delete from t where ", b"not ", 64, b"a = 1")?;
    assert_eq!(rt; outcome(&rt, alloc, nots.as_slice()), ("delete", 1, 0));
    let nots = repeated(alloc, b"delete from t where ", b"not ", 65, b"a = 1")?;
    assert_eq!(rt; outcome(&rt, alloc, nots.as_slice()), ("off", 1, 276));
    let opened = repeated(alloc, b"delete from t where ", b"(not ", 32, b"(a = 1)")?;
    assert_eq!(rt; outcome(&rt, alloc, opened.as_slice()), ("off", 1, 180));
    let closed = repeated(
        alloc,
        b"delete from t where (a = 1)",
        b" and (a = 1)",
        300,
        b"",
    )?;
    assert_eq!(rt; outcome(&rt, alloc, closed.as_slice()), ("delete", 1, 0));
    let long = repeated(alloc, b"insert into t values ('", b"x", 4071, b"')")?;
    assert_eq!(rt;
        (long.len(), outcome(&rt, alloc, long.as_slice())),
        (4096, ("insert", 1, 0))
    );
    let open = repeated(alloc, b"insert into t values ('", b"x", 4073, b"")?;
    assert_eq!(rt;
        (open.len(), outcome(&rt, alloc, open.as_slice())),
        (4096, ("off", 1, 4096))
    );
    Ok(())
}

/// A condition with all its parentheses.
fn put_cond(out: &mut Vec<u8>, cond: &Cond) -> Result<(), Fail> {
    match cond {
        Cond::Compare { column, op, right } => {
            out.extend_from_slice(column.as_bytes())?;
            out.push(match op {
                Op::Eq => b'=',
                Op::Ne => b'#',
                Op::Lt => b'<',
                Op::Le => b'{',
                Op::Gt => b'>',
                Op::Ge => b'}',
            })?;
            match right {
                Operand::Literal(_) => out.push(b'?')?,
                Operand::Column(name) => out.extend_from_slice(name.as_bytes())?,
            }
        }
        Cond::IsNull { column, not } => {
            out.extend_from_slice(column.as_bytes())?;
            out.push(if *not { b'+' } else { b'0' })?;
        }
        Cond::Not(inner) => {
            out.push(b'!')?;
            put_cond(out, inner.get())?;
        }
        Cond::And(a, b) => {
            out.push(b'(')?;
            put_cond(out, a.get())?;
            out.push(b'&')?;
            put_cond(out, b.get())?;
            out.push(b')')?;
        }
        Cond::Or(a, b) => {
            out.push(b'(')?;
            put_cond(out, a.get())?;
            out.push(b'|')?;
            put_cond(out, b.get())?;
            out.push(b')')?;
        }
    }
    Ok(())
}

/// The command that the line gives; a commit where it gives none.
fn command_of(rt: &impl Abort, alloc: Global, line: &[u8]) -> Result<Command, Fail> {
    match parse_line(alloc, line) {
        LineKind::Run {
            session: _,
            what: Ok(command),
        } => Ok(command),
        _ => Ok(Command::Commit),
    }
}

fn filter_of(command: &Command) -> Option<&Cond> {
    match command {
        Command::Delete { table: _, cond } => cond.as_ref(),
        _ => None,
    }
}

#[test]
fn conditions_are_trees(rt: HostRuntime) -> Result<(), Fail> {
    let alloc = rt.alloc();
    for (line, want) in [
        (b"delete from t where a = 1".as_slice(), b"a=?".as_slice()),
        (
            b"delete from t where a <> b and b < c or c <= d and d > e or e >= f".as_slice(),
            b"(((a#b&b<c)|(c{d&d>e))|e}f)".as_slice(),
        ),
        (
            b"delete from t where not a is null and not (b is not null or c = d)".as_slice(),
            b"(!a0&!(b+|c=d))".as_slice(),
        ),
        (
            b"delete from t where a = -1 and (b = 'x' and c = null)".as_slice(),
            b"(a=?&(b=?&c=?))".as_slice(),
        ),
    ] {
        let command = command_of(&rt, alloc, line)?;
        let mut out = Vec::new(alloc);
        if let Some(cond) = filter_of(&command) {
            put_cond(&mut out, cond)?;
        }
        assert_eq!(rt; out.as_slice(), want);
    }
    Ok(())
}

/// The scale of a number, or 99 of a whole number, and its units.
fn number_at(values: &List<Value>, at: usize) -> Option<(u8, i64)> {
    match values.get(at) {
        Some(Value::Int(units)) => Some((99, *units)),
        Some(Value::Number { scale, units }) => Some((*scale, *units)),
        _ => None,
    }
}

fn text_at(values: &List<Value>, at: usize) -> Option<&[u8]> {
    match values.get(at) {
        Some(Value::Text(text)) => Some(text.as_bytes()),
        _ => None,
    }
}

#[test]
fn literals_are_values(rt: HostRuntime) -> Result<(), Fail> {
    let line = b"insert into T values (null, -9223372036854775808, - 2.50, 'it''s ''', 007, 0.0)";
    let command = command_of(&rt, rt.alloc(), line)?;
    let Command::Insert { table, values } = &command else {
        panic!(rt; "no insert");
    };
    assert_eq!(rt; (table.as_bytes(), values.len()), (b"t".as_slice(), 6));
    assert_eq!(rt; number_at(values, 0), None);
    assert_eq!(rt; number_at(values, 1), Some((99, -9223372036854775808)));
    assert_eq!(rt; number_at(values, 2), Some((2, -250)));
    assert_eq!(rt; text_at(values, 3), Some(b"it's '".as_slice()));
    assert_eq!(rt; number_at(values, 4), Some((99, 7)));
    assert_eq!(rt; number_at(values, 5), Some((1, 0)));
    Ok(())
}

/// The canonical spelling of the command of a line; nothing where the line gives none.
fn spelling_of(rt: &impl Abort, alloc: Global, line: &[u8]) -> Result<Vec<u8>, Fail> {
    let mut out = Vec::new(alloc);
    if let LineKind::Run {
        session: _,
        what: Ok(command),
    } = parse_line(alloc, line)
    {
        print(&command, &mut out)?;
    }
    Ok(out)
}

#[test]
fn commands_are_spelled_in_one_way(rt: HostRuntime) -> Result<(), Fail> {
    let alloc = rt.alloc();
    for (line, want) in [
        (
            "CREATE TABLE w(k BIGINT,a varchar(0200)not null,n number(18,04),primary key(k));",
            "create table w (k bigint, a varchar (200) not null, n number (18, 4), primary key (k))",
        ),
        (
            "create table t (a bigint, b bigint not null, primary key (b, a))",
            "create table t (a bigint, b bigint not null, primary key (b, a))",
        ),
        ("@2 drop table T", "drop table t"),
        ("create index i on t(a)", "create index i on t (a)"),
        (
            "create unique index i on t (a,b)",
            "create unique index i on t (a, b)",
        ),
        ("drop  index i ;", "drop index i"),
        (
            "insert into t values(null,- 3,007,-0,0.50,- 00.05,12.0,'it''s','')",
            "insert into t values (null, -3, 7, 0, 0.50, -0.05, 12.0, 'it''s', '')",
        ),
        (
            "insert into t values (-9223372036854775808,9223372036854775807,-9.223372036854775808)",
            "insert into t values (-9223372036854775808, 9223372036854775807, -9.223372036854775808)",
        ),
        (
            "update t set a=1,b=c,v=v-3,w=v+0.5,x=-3 where k=1",
            "update t set a = 1, b = c, v = v - 3, w = v + 0.5, x = -3 where k = 1",
        ),
        ("delete from t", "delete from t"),
        (
            "delete from t where ((a=1 or b=2) or c=3) and ((d<>4 and e<5) and f<=6)",
            "delete from t where (a = 1 or b = 2 or c = 3) and (d <> 4 and e < 5 and f <= 6)",
        ),
        (
            "delete from t where a=1 or (b=2 or c=3)",
            "delete from t where a = 1 or (b = 2 or c = 3)",
        ),
        (
            "delete from t where a=1 and (b=2 and c=3) or (not (not d is null))",
            "delete from t where a = 1 and (b = 2 and c = 3) or not not d is null",
        ),
        (
            "delete from t where not (a>=1 and (b>'x' or c is not null))",
            "delete from t where not (a >= 1 and (b > 'x' or c is not null))",
        ),
        (
            "select count ( * ),sum(v) from kv where not (v=5 or k is null)and k<- 3",
            "select count (*), sum (v) from kv where not (v = 5 or k is null) and k < -3",
        ),
        (
            "select * from t order by a asc,b desc,c",
            "select * from t order by a, b desc, c",
        ),
        (
            "select a,b from t where a=b order by a",
            "select a, b from t where a = b order by a",
        ),
        ("COMMIT", "commit"),
        ("rollback;", "rollback"),
        ("Flush", "flush"),
        ("ttdurablecommit", "ttDurableCommit"),
        ("TTCKPT", "ttCkpt"),
        ("ttckptblocking", "ttCkptBlocking"),
        ("ttlogholds", "ttLogHolds"),
        ("ttbookmark", "ttBookmark"),
        ("ttbackup 007 filefull", "ttBackup 7 fileFull"),
        ("ttbackup 1 filefullenable", "ttBackup 1 fileFullEnable"),
        ("ttbackup 1 fileincremental", "ttBackup 1 fileIncremental"),
        ("ttbackup 1 fileincrorfull", "ttBackup 1 fileIncrOrFull"),
        (
            "ttbackup 999 incrementalstop",
            "ttBackup 999 incrementalStop",
        ),
        ("ttxlabookmarkcreate B", "ttXlaBookmarkCreate b"),
        ("ttxlabookmarkdelete b", "ttXlaBookmarkDelete b"),
        ("ttxlasubscribe t b", "ttXlaSubscribe t b"),
        ("ttxlaunsubscribe t b", "ttXlaUnsubscribe t b"),
        ("ttxlaopen b", "ttXlaOpen b"),
        ("ttxlanextupdate 0010", "ttXlaNextUpdate 10"),
        ("ttxlaacknowledge", "ttXlaAcknowledge"),
        ("ttxlaclose", "ttXlaClose"),
        (
            "create table accounts (id bigint, owner varchar(30) not null, balance number(18,4) not null, primary key (id))",
            "create table accounts (id bigint, owner varchar (30) not null, balance number (18, 4) not null, primary key (id))",
        ),
        (
            "create table orders (id bigint, account bigint not null, qty bigint, price number(18,4), primary key (id))",
            "create table orders (id bigint, account bigint not null, qty bigint, price number (18, 4), primary key (id))",
        ),
        (
            "create index orders_account on orders (account)",
            "create index orders_account on orders (account)",
        ),
        ("ttXlaBookmarkCreate feed", "ttXlaBookmarkCreate feed"),
        ("ttXlaSubscribe orders feed", "ttXlaSubscribe orders feed"),
        (
            "@1 insert into accounts values (1, 'Ada''s desk', 1000)",
            "insert into accounts values (1, 'Ada''s desk', 1000)",
        ),
        (
            "@1 insert into accounts values (2, 'Bo', 250.5)",
            "insert into accounts values (2, 'Bo', 250.5)",
        ),
        ("@1 commit", "commit"),
        (
            "@2 insert into orders values (10, 1, 100, 12.25)",
            "insert into orders values (10, 1, 100, 12.25)",
        ),
        (
            "@2 update accounts set balance = balance - 125.5 where id = 1",
            "update accounts set balance = balance - 125.5 where id = 1",
        ),
        (
            "@3 select balance from accounts where id = 1",
            "select balance from accounts where id = 1",
        ),
        (
            "@3 update accounts set balance = 0 where owner = 'Ada''s desk'",
            "update accounts set balance = 0 where owner = 'Ada''s desk'",
        ),
        (
            "@2 select * from accounts order by balance desc",
            "select * from accounts order by balance desc",
        ),
        ("@1 ttCkpt", "ttCkpt"),
        (
            "@3 insert into orders values (11, 2, null, null)",
            "insert into orders values (11, 2, null, null)",
        ),
        (
            "@3 select count(*), sum(qty) from orders",
            "select count (*), sum (qty) from orders",
        ),
        ("@3 ttXlaOpen feed", "ttXlaOpen feed"),
        ("@3 ttXlaNextUpdate 10", "ttXlaNextUpdate 10"),
        ("@3 ttXlaAcknowledge", "ttXlaAcknowledge"),
        ("@3 ttLogHolds", "ttLogHolds"),
        ("@3 flush", "flush"),
        ("@1 ttBookmark", "ttBookmark"),
        (
            "@2 select id from orders where not qty = 5",
            "select id from orders where not qty = 5",
        ),
    ] {
        let spelling = spelling_of(&rt, alloc, line.as_bytes())?;
        assert_eq!(rt; spelling.as_slice(), want.as_bytes());
        let again = spelling_of(&rt, alloc, spelling.as_slice())?;
        assert_eq!(rt; again.as_slice(), want.as_bytes());
    }
    Ok(())
}
