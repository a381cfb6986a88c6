//! Rows of PostgreSQL, on both sides.
use crate::rows::run_rows;
use std::test::Fail;

/// Sessions of a client before the instances.
const INCOMING: &str = r#"
row a start
version 1
ask \0\0\0\x08\x04\xd2\x16/
012 N
> 3 N
3 \0\0\0\x10\0\x03\0\0user\0u\0
3 \0
> 012 \0\0\0\x10\0\x03\0\0user\0u\0\0
0 R\0\0\0\x08\0\0\0\0K\0\0\0\x0cAAAAAAAAZ\0\0\0\x05I
1 R\0\0\0\x08\0\0\0\0K\0\0\0\x0cBBBBBBBBZ\0\0\0\x05I
2 R\0\0\0\x08\0\0\0\0K\0\0\0\x0cCCCCCCCCZ\0\0\0\x05I
> 3 R\0\0\0\x08\0\0\0\0K\0\0\0\x0cAAAAAAAAZ\0\0\0\x05I
= 0 live

row a value that differs
version 1
ask \0\0\0\x10\0\x03\0\0user\0u\0\0
012 R\0\0\0\x08\0\0\0\0Z\0\0\0\x05I
> 3 R\0\0\0\x08\0\0\0\0Z\0\0\0\x05I
ask Q\0\0\0\x0dSELECT 1\0
01 T\0\0\0!\0\x01?column?\0\0\0\0\0\0\0\0\0\0\x17\0\x04\xff\xff\xff\xff\0\0D\0\0\0\x0b\0\x01\0\0\0\x011C\0\0\0\x0dSELECT 1\0Z\0\0\0\x05I
2 T\0\0\0!\0\x01?column?\0\0\0\0\0\0\0\0\0\0\x17\0\x04\xff\xff\xff\xff\0\0D\0\0\0\x0b\0\x01\0\0\0\x012C\0\0\0\x0dSELECT 1\0Z\0\0\0\x05I
= 1 end Disagree exchange 2 copy 2 place 6

row a value that is noise
version 1
ask \0\0\0\x10\0\x03\0\0user\0u\0\0
012 R\0\0\0\x08\0\0\0\0Z\0\0\0\x05I
> 3 R\0\0\0\x08\0\0\0\0Z\0\0\0\x05I
ask Q\0\0\0\x0dSELECT 1\0
0 T\0\0\0!\0\x01?column?\0\0\0\0\0\0\0\0\0\0\x17\0\x04\xff\xff\xff\xff\0\0D\0\0\0\x0c\0\x01\0\0\0\x021aC\0\0\0\x0dSELECT 1\0Z\0\0\0\x05I
1 T\0\0\0!\0\x01?column?\0\0\0\0\0\0\0\0\0\0\x17\0\x04\xff\xff\xff\xff\0\0D\0\0\0\x0c\0\x01\0\0\0\x022bC\0\0\0\x0dSELECT 1\0Z\0\0\0\x05I
2 T\0\0\0!\0\x01?column?\0\0\0\0\0\0\0\0\0\0\x17\0\x04\xff\xff\xff\xff\0\0D\0\0\0\x0d\0\x01\0\0\0\x03333C\0\0\0\x0dSELECT 1\0Z\0\0\0\x05I
> 3 T\0\0\0!\0\x01?column?\0\0\0\0\0\0\0\0\0\0\x17\0\x04\xff\xff\xff\xff\0\0D\0\0\0\x0c\0\x01\0\0\0\x021aC\0\0\0\x0dSELECT 1\0Z\0\0\0\x05I
= 0 live

row a NULL against a value
version 1
ask \0\0\0\x10\0\x03\0\0user\0u\0\0
012 R\0\0\0\x08\0\0\0\0Z\0\0\0\x05I
> 3 R\0\0\0\x08\0\0\0\0Z\0\0\0\x05I
ask Q\0\0\0\x0dSELECT 1\0
01 T\0\0\0!\0\x01?column?\0\0\0\0\0\0\0\0\0\0\x17\0\x04\xff\xff\xff\xff\0\0D\0\0\0\x0b\0\x01\0\0\0\x011C\0\0\0\x0dSELECT 1\0Z\0\0\0\x05I
2 T\0\0\0!\0\x01?column?\0\0\0\0\0\0\0\0\0\0\x17\0\x04\xff\xff\xff\xff\0\0D\0\0\0\x0a\0\x01\xff\xff\xff\xffC\0\0\0\x0dSELECT 1\0Z\0\0\0\x05I
= 1 end Disagree exchange 2 copy 2 place 6

row a value against a NULL in the pair
version 1
ask \0\0\0\x10\0\x03\0\0user\0u\0\0
012 R\0\0\0\x08\0\0\0\0Z\0\0\0\x05I
> 3 R\0\0\0\x08\0\0\0\0Z\0\0\0\x05I
ask Q\0\0\0\x0dSELECT 1\0
0 T\0\0\0!\0\x01?column?\0\0\0\0\0\0\0\0\0\0\x17\0\x04\xff\xff\xff\xff\0\0D\0\0\0\x0a\0\x01\0\0\0\0C\0\0\0\x0dSELECT 1\0Z\0\0\0\x05I
1 T\0\0\0!\0\x01?column?\0\0\0\0\0\0\0\0\0\0\x17\0\x04\xff\xff\xff\xff\0\0D\0\0\0\x0a\0\x01\xff\xff\xff\xffC\0\0\0\x0dSELECT 1\0Z\0\0\0\x05I
2 T\0\0\0!\0\x01?column?\0\0\0\0\0\0\0\0\0\0\x17\0\x04\xff\xff\xff\xff\0\0D\0\0\0\x0a\0\x01\0\0\0\0C\0\0\0\x0dSELECT 1\0Z\0\0\0\x05I
= 1 end Disagree exchange 2 copy 1 place 6

row an error whose text differs
version 1
ask \0\0\0\x10\0\x03\0\0user\0u\0\0
012 R\0\0\0\x08\0\0\0\0Z\0\0\0\x05I
> 3 R\0\0\0\x08\0\0\0\0Z\0\0\0\x05I
ask Q\0\0\0\x0dSELECT 1\0
01 E\0\0\0,SERROR\0VERROR\0C42P01\0Mno x\0Fparse.c\0L1\0\0Z\0\0\0\x05I
2 E\0\0\0,SERROR\0VERROR\0C42P01\0Mno y\0Fparse.c\0L1\0\0Z\0\0\0\x05I
= 1 end Disagree exchange 2 copy 2 place 8

row an error whose text is noise
version 1
ask \0\0\0\x10\0\x03\0\0user\0u\0\0
012 R\0\0\0\x08\0\0\0\0Z\0\0\0\x05I
> 3 R\0\0\0\x08\0\0\0\0Z\0\0\0\x05I
ask Q\0\0\0\x0dSELECT 1\0
0 E\0\0\0,SERROR\0VERROR\0C42P01\0Mno a\0Fparse.c\0L1\0\0Z\0\0\0\x05I
1 E\0\0\0,SERROR\0VERROR\0C42P01\0Mno b\0Fparse.c\0L2\0\0Z\0\0\0\x05I
2 E\0\0\0-SERROR\0VERROR\0C42P01\0Mno c\0Fparse.c\0L30\0\0Z\0\0\0\x05I
> 3 E\0\0\0,SERROR\0VERROR\0C42P01\0Mno a\0Fparse.c\0L1\0\0Z\0\0\0\x05I
= 0 live

row another version of the server
version 1
ask \0\0\0\x10\0\x03\0\0user\0u\0\0
0 R\0\0\0\x08\0\0\0\0S\0\0\0\x18server_version\015.4\0S\0\0\0\x11TimeZone\0UTC\0Z\0\0\0\x05I
1 R\0\0\0\x08\0\0\0\0S\0\0\0\x18server_version\015.4\0S\0\0\0\x11TimeZone\0UTC\0Z\0\0\0\x05I
2 R\0\0\0\x08\0\0\0\0S\0\0\0\x18server_version\016.1\0S\0\0\0\x11TimeZone\0UTC\0Z\0\0\0\x05I
> 3 R\0\0\0\x08\0\0\0\0S\0\0\0\x18server_version\015.4\0S\0\0\0\x11TimeZone\0UTC\0Z\0\0\0\x05I
= 0 live

row another time zone
version 1
ask \0\0\0\x10\0\x03\0\0user\0u\0\0
01 R\0\0\0\x08\0\0\0\0S\0\0\0\x18server_version\015.4\0S\0\0\0\x11TimeZone\0UTC\0Z\0\0\0\x05I
2 R\0\0\0\x08\0\0\0\0S\0\0\0\x18server_version\015.4\0S\0\0\0\x11TimeZone\0CET\0Z\0\0\0\x05I
= 1 end Disagree exchange 1 copy 2 place 6

row a row that ends early
version 1
ask \0\0\0\x10\0\x03\0\0user\0u\0\0
012 R\0\0\0\x08\0\0\0\0Z\0\0\0\x05I
> 3 R\0\0\0\x08\0\0\0\0Z\0\0\0\x05I
ask Q\0\0\0\x0dSELECT 1\0
0 T\0\0\0!\0\x01?column?\0\0\0\0\0\0\0\0\0\0\x17\0\x04\xff\xff\xff\xff\0\0D\0\0\0\x0c\0\x01\0\0\0\x05abZ\0\0\0\x05I
1 T\0\0\0!\0\x01?column?\0\0\0\0\0\0\0\0\0\0\x17\0\x04\xff\xff\xff\xff\0\0D\0\0\0\x0c\0\x01\0\0\0\x05cdZ\0\0\0\x05I
2 T\0\0\0!\0\x01?column?\0\0\0\0\0\0\0\0\0\0\x17\0\x04\xff\xff\xff\xff\0\0D\0\0\0\x0c\0\x01\0\0\0\x05abZ\0\0\0\x05I
= 1 end Disagree exchange 2 copy 1 place 6

row messages that all end early
version 1
ask \0\0\0\x10\0\x03\0\0user\0u\0\0
012 R\0\0\0\x08\0\0\0\0Z\0\0\0\x05I
> 3 R\0\0\0\x08\0\0\0\0Z\0\0\0\x05I
ask Q\0\0\0\x0dSELECT 1\0
012 T\0\0\0\x08\0\x01abC\0\0\0\x06abS\0\0\0\x06abE\0\0\0\x07MabD\0\0\0\x05\0Z\0\0\0\x05I
> 3 T\0\0\0\x08\0\x01abC\0\0\0\x06abS\0\0\0\x06abE\0\0\0\x07MabD\0\0\0\x05\0Z\0\0\0\x05I
= 0 live

row a description that ends early
version 1
ask \0\0\0\x10\0\x03\0\0user\0u\0\0
012 R\0\0\0\x08\0\0\0\0Z\0\0\0\x05I
> 3 R\0\0\0\x08\0\0\0\0Z\0\0\0\x05I
ask Q\0\0\0\x0dSELECT 1\0
02 T\0\0\0\x08\0\x01abC\0\0\0\x06abS\0\0\0\x06abE\0\0\0\x07MabD\0\0\0\x05\0Z\0\0\0\x05I
1 T\0\0\0\x08\0\x01acC\0\0\0\x06abS\0\0\0\x06abE\0\0\0\x07MabD\0\0\0\x05\0Z\0\0\0\x05I
= 1 end Disagree exchange 2 copy 1 place 2

row a tag that ends early
version 1
ask \0\0\0\x10\0\x03\0\0user\0u\0\0
012 R\0\0\0\x08\0\0\0\0Z\0\0\0\x05I
> 3 R\0\0\0\x08\0\0\0\0Z\0\0\0\x05I
ask Q\0\0\0\x0dSELECT 1\0
02 T\0\0\0\x08\0\x01abC\0\0\0\x06abS\0\0\0\x06abE\0\0\0\x07MabD\0\0\0\x05\0Z\0\0\0\x05I
1 T\0\0\0\x08\0\x01abC\0\0\0\x06acS\0\0\0\x06abE\0\0\0\x07MabD\0\0\0\x05\0Z\0\0\0\x05I
= 1 end Disagree exchange 2 copy 1 place 4

row a parameter that ends early
version 1
ask \0\0\0\x10\0\x03\0\0user\0u\0\0
012 R\0\0\0\x08\0\0\0\0Z\0\0\0\x05I
> 3 R\0\0\0\x08\0\0\0\0Z\0\0\0\x05I
ask Q\0\0\0\x0dSELECT 1\0
02 T\0\0\0\x08\0\x01abC\0\0\0\x06abS\0\0\0\x06abE\0\0\0\x07MabD\0\0\0\x05\0Z\0\0\0\x05I
1 T\0\0\0\x08\0\x01abC\0\0\0\x06abS\0\0\0\x06acE\0\0\0\x07MabD\0\0\0\x05\0Z\0\0\0\x05I
= 1 end Disagree exchange 2 copy 1 place 6

row an error that ends early
version 1
ask \0\0\0\x10\0\x03\0\0user\0u\0\0
012 R\0\0\0\x08\0\0\0\0Z\0\0\0\x05I
> 3 R\0\0\0\x08\0\0\0\0Z\0\0\0\x05I
ask Q\0\0\0\x0dSELECT 1\0
02 T\0\0\0\x08\0\x01abC\0\0\0\x06abS\0\0\0\x06abE\0\0\0\x07MabD\0\0\0\x05\0Z\0\0\0\x05I
1 T\0\0\0\x08\0\x01abC\0\0\0\x06abS\0\0\0\x06abE\0\0\0\x07MacD\0\0\0\x05\0Z\0\0\0\x05I
= 1 end Disagree exchange 2 copy 1 place 9

row a count that ends early
version 1
ask \0\0\0\x10\0\x03\0\0user\0u\0\0
012 R\0\0\0\x08\0\0\0\0Z\0\0\0\x05I
> 3 R\0\0\0\x08\0\0\0\0Z\0\0\0\x05I
ask Q\0\0\0\x0dSELECT 1\0
02 T\0\0\0\x08\0\x01abC\0\0\0\x06abS\0\0\0\x06abE\0\0\0\x07MabD\0\0\0\x05\0Z\0\0\0\x05I
1 T\0\0\0\x08\0\x01abC\0\0\0\x06abS\0\0\0\x06abE\0\0\0\x07MabD\0\0\0\x05\x01Z\0\0\0\x05I
= 1 end Disagree exchange 2 copy 1 place 11

row a free column
version 2
set free_names = ["now"]
ask \0\0\0\x10\0\x03\0\0user\0u\0\0
012 R\0\0\0\x08\0\0\0\0Z\0\0\0\x05I
> 3 R\0\0\0\x08\0\0\0\0Z\0\0\0\x05I
ask Q\0\0\0\x0dSELECT 1\0
0 T\0\0\0\x1c\0\x01now\0\0\0\0\0\0\0\0\0\0\x17\0\x04\xff\xff\xff\xff\0\0D\0\0\0\x0b\0\x01\0\0\0\x011C\0\0\0\x0dSELECT 1\0Z\0\0\0\x05I
1 T\0\0\0\x1c\0\x01now\0\0\0\0\0\0\0\0\0\0\x17\0\x04\xff\xff\xff\xff\0\0D\0\0\0\x0a\0\x01\xff\xff\xff\xffC\0\0\0\x0dSELECT 1\0Z\0\0\0\x05I
2 T\0\0\0\x1c\0\x01now\0\0\0\0\0\0\0\0\0\0\x17\0\x04\xff\xff\xff\xff\0\0D\0\0\0\x0d\0\x01\0\0\0\x03333C\0\0\0\x0dSELECT 1\0Z\0\0\0\x05I
> 3 T\0\0\0\x1c\0\x01now\0\0\0\0\0\0\0\0\0\0\x17\0\x04\xff\xff\xff\xff\0\0D\0\0\0\x0b\0\x01\0\0\0\x011C\0\0\0\x0dSELECT 1\0Z\0\0\0\x05I
= 0 live

row a firm column
version 2
set firm_names = ["id"]
ask \0\0\0\x10\0\x03\0\0user\0u\0\0
012 R\0\0\0\x08\0\0\0\0Z\0\0\0\x05I
> 3 R\0\0\0\x08\0\0\0\0Z\0\0\0\x05I
ask Q\0\0\0\x0dSELECT 1\0
0 T\0\0\0\x1b\0\x01id\0\0\0\0\0\0\0\0\0\0\x17\0\x04\xff\xff\xff\xff\0\0D\0\0\0\x0b\0\x01\0\0\0\x011C\0\0\0\x0dSELECT 1\0Z\0\0\0\x05I
1 T\0\0\0\x1b\0\x01id\0\0\0\0\0\0\0\0\0\0\x17\0\x04\xff\xff\xff\xff\0\0D\0\0\0\x0b\0\x01\0\0\0\x012C\0\0\0\x0dSELECT 1\0Z\0\0\0\x05I
2 T\0\0\0\x1b\0\x01id\0\0\0\0\0\0\0\0\0\0\x17\0\x04\xff\xff\xff\xff\0\0D\0\0\0\x0b\0\x01\0\0\0\x013C\0\0\0\x0dSELECT 1\0Z\0\0\0\x05I
= 1 end Disagree exchange 2 copy 1 place 6

row SASL
version 1
ask \0\0\0\x10\0\x03\0\0user\0u\0\0
0 R\0\0\0\x17\0\0\0\x0aSCRAM-SHA-256\0\0
= 1 end Unsupported link 0 code 10

row a password with salt, before the instances
version 1
ask \0\0\0\x10\0\x03\0\0user\0u\0\0
0 R\0\0\0\x0c\0\0\0\x05salt
= 1 end Unsupported link 0 code 5

row a farewell
version 1
ask \0\0\0\x10\0\x03\0\0user\0u\0\0
012 R\0\0\0\x08\0\0\0\0Z\0\0\0\x05I
> 3 R\0\0\0\x08\0\0\0\0Z\0\0\0\x05I
ask X\0\0\0\x04
= 0 end Done

row flush
version 1
ask \0\0\0\x10\0\x03\0\0user\0u\0\0
012 R\0\0\0\x08\0\0\0\0Z\0\0\0\x05I
> 3 R\0\0\0\x08\0\0\0\0Z\0\0\0\x05I
3 F\0\0\0\x04
= 1 end Unsupported link 3 code 70

row flush of the extended protocol
version 1
ask \0\0\0\x10\0\x03\0\0user\0u\0\0
012 R\0\0\0\x08\0\0\0\0Z\0\0\0\x05I
> 3 R\0\0\0\x08\0\0\0\0Z\0\0\0\x05I
3 H\0\0\0\x04
= 1 end Unsupported link 3 code 72

row a length of 3
version 1
ask \0\0\0\x10\0\x03\0\0user\0u\0\0
012 R\0\0\0\x08\0\0\0\0Z\0\0\0\x05I
> 3 R\0\0\0\x08\0\0\0\0Z\0\0\0\x05I
3 X\0\0\0\x03
= 1 end Malformed link 3

row a query with a length of 3
version 1
ask \0\0\0\x10\0\x03\0\0user\0u\0\0
012 R\0\0\0\x08\0\0\0\0Z\0\0\0\x05I
> 3 R\0\0\0\x08\0\0\0\0Z\0\0\0\x05I
3 Q\0\0\0\x03
= 1 end Malformed link 3

row a startup of 10,001 bytes
version 1
3 \0\0'\x11
= 1 end Malformed link 3
"#;

/// Sessions of the instances before their backend.
const OUTGOING: &str = r#"
row a call with a password
version 1
outgoing
012 \0\0\0\x10\0\x03\0\0user\0u\0\0
> 3 \0\0\0\x10\0\x03\0\0user\0u\0\0
3 R\0\0\0\x0c\0\0\0\x05salt
> 012 R\0\0\0\x0c\0\0\0\x05salt
0 p\0\0\0(md500000000000000000000000000000000\0
1 p\0\0\0(md511111111111111111111111111111111\0
2 p\0\0\0(md522222222222222222222222222222222\0
> 3 p\0\0\0(md500000000000000000000000000000000\0
3 R\0\0\0\x08\0\0\0\0S\0\0\0\x18server_version\016.1\0K\0\0\0\x0cAAAABBBBZ\0\0\0\x05I
> 012 R\0\0\0\x08\0\0\0\0S\0\0\0\x18server_version\016.1\0K\0\0\0\x0cAAAABBBBZ\0\0\0\x05I
= 0 live

row a bound value that is noise
version 1
outgoing
012 \0\0\0\x10\0\x03\0\0user\0u\0\0
> 3 \0\0\0\x10\0\x03\0\0user\0u\0\0
3 R\0\0\0\x08\0\0\0\0Z\0\0\0\x05I
> 012 R\0\0\0\x08\0\0\0\0Z\0\0\0\x05I
0 P\0\0\0\x11\0SELECT $1\0\0\0B\0\0\0\x14\0\0\0\x01\0\0\0\x01\0\0\0\x02a1\0\0E\0\0\0\x09\0\0\0\0\0S\0\0\0\x04
1 P\0\0\0\x11\0SELECT $1\0\0\0B\0\0\0\x14\0\0\0\x01\0\0\0\x01\0\0\0\x02b2\0\0E\0\0\0\x09\0\0\0\0\0S\0\0\0\x04
2 P\0\0\0\x11\0SELECT $1\0\0\0B\0\0\0\x15\0\0\0\x01\0\0\0\x01\0\0\0\x03c33\0\0E\0\0\0\x09\0\0\0\0\0S\0\0\0\x04
> 3 P\0\0\0\x11\0SELECT $1\0\0\0B\0\0\0\x14\0\0\0\x01\0\0\0\x01\0\0\0\x02a1\0\0E\0\0\0\x09\0\0\0\0\0S\0\0\0\x04
= 0 live

row a bound value in another format
version 1
outgoing
012 \0\0\0\x10\0\x03\0\0user\0u\0\0
> 3 \0\0\0\x10\0\x03\0\0user\0u\0\0
3 R\0\0\0\x08\0\0\0\0Z\0\0\0\x05I
> 012 R\0\0\0\x08\0\0\0\0Z\0\0\0\x05I
01 P\0\0\0\x11\0SELECT $1\0\0\0B\0\0\0\x14\0\0\0\x01\0\0\0\x01\0\0\0\x02a1\0\0E\0\0\0\x09\0\0\0\0\0S\0\0\0\x04
2 P\0\0\0\x11\0SELECT $1\0\0\0B\0\0\0\x14\0\0\0\x01\0\x01\0\x01\0\0\0\x02a1\0\0E\0\0\0\x09\0\0\0\0\0S\0\0\0\x04
= 1 end Disagree exchange 2 copy 2 place 10

row another query in one caller
version 1
outgoing
012 \0\0\0\x10\0\x03\0\0user\0u\0\0
> 3 \0\0\0\x10\0\x03\0\0user\0u\0\0
3 R\0\0\0\x08\0\0\0\0Z\0\0\0\x05I
> 012 R\0\0\0\x08\0\0\0\0Z\0\0\0\x05I
01 Q\0\0\0\x0dSELECT 1\0
2 Q\0\0\0\x0dSELECT 2\0
= 1 end Disagree exchange 2 copy 2 place 3

row a query that ends early
version 1
outgoing
012 \0\0\0\x10\0\x03\0\0user\0u\0\0
> 3 \0\0\0\x10\0\x03\0\0user\0u\0\0
3 R\0\0\0\x08\0\0\0\0Z\0\0\0\x05I
> 012 R\0\0\0\x08\0\0\0\0Z\0\0\0\x05I
02 Q\0\0\0\x07SEL
1 Q\0\0\0\x07SEM
= 1 end Disagree exchange 2 copy 1 place 1

row a statement that ends early
version 1
outgoing
012 \0\0\0\x10\0\x03\0\0user\0u\0\0
> 3 \0\0\0\x10\0\x03\0\0user\0u\0\0
3 R\0\0\0\x08\0\0\0\0Z\0\0\0\x05I
> 012 R\0\0\0\x08\0\0\0\0Z\0\0\0\x05I
02 P\0\0\0\x08\0SELS\0\0\0\x04
1 P\0\0\0\x08\0SEMS\0\0\0\x04
= 1 end Disagree exchange 2 copy 1 place 2

row formats that end early
version 1
outgoing
012 \0\0\0\x10\0\x03\0\0user\0u\0\0
> 3 \0\0\0\x10\0\x03\0\0user\0u\0\0
3 R\0\0\0\x08\0\0\0\0Z\0\0\0\x05I
> 012 R\0\0\0\x08\0\0\0\0Z\0\0\0\x05I
02 B\0\0\0\x07\0\0\0S\0\0\0\x04
1 B\0\0\0\x07\0\0\x01S\0\0\0\x04
= 1 end Disagree exchange 2 copy 1 place 3

row a startup that ends early
version 1
outgoing
02 \0\0\0\x0c\0\x03\0\0user
1 \0\0\0\x0c\0\x03\0\0usex
= 1 end Disagree exchange 1 copy 1 place 1
"#;

#[test]
fn rows_of_clients(rt: HostRuntime) -> Result<(), Fail> {
    let faults = run_rows(rt.alloc(), "pg", INCOMING)?;
    assert_eq!(rt; faults.as_str(), "");
    Ok(())
}

#[test]
fn rows_of_callers(rt: HostRuntime) -> Result<(), Fail> {
    let faults = run_rows(rt.alloc(), "pg", OUTGOING)?;
    assert_eq!(rt; faults.as_str(), "");
    Ok(())
}
