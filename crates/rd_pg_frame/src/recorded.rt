//! What psql and pgbench said to a PostgreSQL 15 server and what it answered, read by read: the connection, who
//! wrote, and the bytes. tools/record_postgres.py made it.

pub const RECORDED: [(u8, u8, &[u8]); 30] = [
    (0, b'>', b"\0\0\0\x08\x04\xd2\x16/"),
    (0, b'<', b"N"),
    (
        0,
        b'>',
        b"\0\0\0%\0\x03\0\0user\0rddr\0database\0postgres\0\0",
    ),
    (
        0,
        b'<',
        b"R\0\0\0\x08\0\0\0\0S\0\0\0\x16application_name\0\0S\0\0\0\x19client_encoding\0UTF8\0S\0\0\0\x17DateStyle\0ISO, MDY\0S\0\0\0&default_transaction_read_only\0off\0S\0\0\0\x17in_hot_standby\0off\0S\0\0\0\x19integer_datetimes\0on\0S\0\0\0\x1bIntervalStyle\0postgres\0S\0\0\0\x14is_superuser\0on\0S\0\0\0\x19server_encoding\0UTF8\0S\0\0\02server_version\015.18 (Debian 15.18-0+deb12u1)\0S\0\0\0\x1fsession_authorization\0rddr\0S\0\0\0#standard_conforming_strings\0on\0S\0\0\0\x15TimeZone\0Etc/UTC\0K\0\0\0\x0c\0\0\x0b\xb4\x96{txZ\0\0\0\x05I",
    ),
    (0, b'>', b"Q\0\0\0\x14select 1 as one\0"),
    (
        0,
        b'<',
        b"T\0\0\0\x1c\0\x01one\0\0\0\0\0\0\0\0\0\0\x17\0\x04\xff\xff\xff\xff\0\0D\0\0\0\x0b\0\x01\0\0\0\x011C\0\0\0\x0dSELECT 1\0Z\0\0\0\x05I",
    ),
    (0, b'>', b"Q\0\0\0\x0fselect 1/0\0"),
    (
        0,
        b'<',
        b"E\0\0\0ASERROR\0VERROR\0C22012\0Mdivision by zero\0Fint.c\0L869\0Rint4div\0\0Z\0\0\0\x05I",
    ),
    (
        0,
        b'>',
        b"Q\0\0\0-do $$ begin raise notice 'hello'; end $$\0",
    ),
    (
        0,
        b'<',
        b"N\0\0\0zSNOTICE\0VNOTICE\0C00000\0Mhello\0WPL/pgSQL function inline_code_block line 1 at RAISE\0Fpl_exec.c\0L3891\0Rexec_stmt_raise\0\0",
    ),
    (0, b'<', b"C\0\0\0\x07DO\0Z\0\0\0\x05I"),
    (0, b'>', b"Q\0\0\0\x05\0"),
    (0, b'<', b"I\0\0\0\x04Z\0\0\0\x05I"),
    (0, b'>', b"X\0\0\0\x04"),
    (1, b'>', b"\0\0\0\x08\x04\xd2\x16/"),
    (1, b'<', b"N"),
    (
        1,
        b'>',
        b"\0\0\0%\0\x03\0\0user\0rddr\0database\0postgres\0\0",
    ),
    (
        1,
        b'<',
        b"R\0\0\0\x08\0\0\0\0S\0\0\0\x16application_name\0\0S\0\0\0\x19client_encoding\0UTF8\0S\0\0\0\x17DateStyle\0ISO, MDY\0S\0\0\0&default_transaction_read_only\0off\0S\0\0\0\x17in_hot_standby\0off\0S\0\0\0\x19integer_datetimes\0on\0S\0\0\0\x1bIntervalStyle\0postgres\0S\0\0\0\x14is_superuser\0on\0S\0\0\0\x19server_encoding\0UTF8\0S\0\0\02server_version\015.18 (Debian 15.18-0+deb12u1)\0S\0\0\0\x1fsession_authorization\0rddr\0S\0\0\0#standard_conforming_strings\0on\0S\0\0\0\x15TimeZone\0Etc/UTC\0K\0\0\0\x0c\0\0\x0b\xb8\xab\xdeK\xe7Z\0\0\0\x05I",
    ),
    (1, b'>', b"X\0\0\0\x04"),
    (2, b'>', b"\0\0\0\x08\x04\xd2\x16/"),
    (2, b'<', b"N"),
    (
        2,
        b'>',
        b"\0\0\0%\0\x03\0\0user\0rddr\0database\0postgres\0\0",
    ),
    (
        2,
        b'<',
        b"R\0\0\0\x08\0\0\0\0S\0\0\0\x16application_name\0\0S\0\0\0\x19client_encoding\0UTF8\0S\0\0\0\x17DateStyle\0ISO, MDY\0S\0\0\0&default_transaction_read_only\0off\0S\0\0\0\x17in_hot_standby\0off\0S\0\0\0\x19integer_datetimes\0on\0S\0\0\0\x1bIntervalStyle\0postgres\0S\0\0\0\x14is_superuser\0on\0S\0\0\0\x19server_encoding\0UTF8\0S\0\0\02server_version\015.18 (Debian 15.18-0+deb12u1)\0S\0\0\0\x1fsession_authorization\0rddr\0S\0\0\0#standard_conforming_strings\0on\0S\0\0\0\x15TimeZone\0Etc/UTC\0K\0\0\0\x0c\0\0\x0b\xbaU\xe4\xe5\x0eZ\0\0\0\x05I",
    ),
    (
        2,
        b'>',
        b"P\0\0\0\"P_0\0select 6 * 7 as answer;\0\0\0S\0\0\0\x04",
    ),
    (2, b'<', b"1\0\0\0\x04Z\0\0\0\x05I"),
    (
        2,
        b'>',
        b"B\0\0\0\x11\0P_0\0\0\0\0\0\0\x01\0\0D\0\0\0\x06P\0E\0\0\0\x09\0\0\0\0\0S\0\0\0\x04",
    ),
    (
        2,
        b'<',
        b"2\0\0\0\x04T\0\0\0\x1f\0\x01answer\0\0\0\0\0\0\0\0\0\0\x17\0\x04\xff\xff\xff\xff\0\0D\0\0\0\x0c\0\x01\0\0\0\x0242C\0\0\0\x0dSELECT 1\0Z\0\0\0\x05I",
    ),
    (
        2,
        b'>',
        b"B\0\0\0\x11\0P_0\0\0\0\0\0\0\x01\0\0D\0\0\0\x06P\0E\0\0\0\x09\0\0\0\0\0S\0\0\0\x04",
    ),
    (
        2,
        b'<',
        b"2\0\0\0\x04T\0\0\0\x1f\0\x01answer\0\0\0\0\0\0\0\0\0\0\x17\0\x04\xff\xff\xff\xff\0\0D\0\0\0\x0c\0\x01\0\0\0\x0242C\0\0\0\x0dSELECT 1\0Z\0\0\0\x05I",
    ),
    (2, b'>', b"X\0\0\0\x04"),
];
