//! Copies of requests and of the calls that carry them.

use crate::copy::TryCopy;
use crate::memory::NoMemory;
use crate::request::{Call, DaclChange, Request, What};
use std::alloc::Global;

impl TryCopy for DaclChange {
    fn copy(&self, alloc: Global) -> Result<DaclChange, NoMemory> {
        match self {
            DaclChange::Keep => Ok(DaclChange::Keep),
            DaclChange::Remove => Ok(DaclChange::Remove),
            DaclChange::Put(dacl) => Ok(DaclChange::Put(dacl.copy(alloc)?)),
        }
    }
}

impl TryCopy for What {
    fn copy(&self, alloc: Global) -> Result<What, NoMemory> {
        match self {
            What::Ask(request) => Ok(What::Ask(request.copy(alloc)?)),
            What::Tick(ticks) => Ok(What::Tick(*ticks)),
            What::WaitFor(number) => Ok(What::WaitFor(*number)),
            What::Leave => Ok(What::Leave),
        }
    }
}

impl TryCopy for Call {
    fn copy(&self, alloc: Global) -> Result<Call, NoMemory> {
        Ok(Call {
            client: self.client,
            number: self.number,
            what: self.what.copy(alloc)?,
        })
    }
}

impl TryCopy for Request {
    fn copy(&self, alloc: Global) -> Result<Request, NoMemory> {
        let made = match self {
            Request::Create {
                path,
                wanted,
                share,
                disposition,
                options,
                attributes,
                key,
            } => Request::Create {
                path: path.copy(alloc)?,
                wanted: *wanted,
                share: *share,
                disposition: *disposition,
                options: *options,
                attributes: *attributes,
                key: *key,
            },
            Request::Close { handle } => Request::Close { handle: *handle },
            Request::Read { handle, at, count } => Request::Read {
                handle: *handle,
                at: *at,
                count: *count,
            },
            Request::Write { handle, at, bytes } => Request::Write {
                handle: *handle,
                at: *at,
                bytes: bytes.copy(alloc)?,
            },
            Request::Flush { handle } => Request::Flush { handle: *handle },
            Request::Lock {
                handle,
                at,
                count,
                exclusive,
                wait,
            } => Request::Lock {
                handle: *handle,
                at: *at,
                count: *count,
                exclusive: *exclusive,
                wait: *wait,
            },
            Request::Unlock { handle, at, count } => Request::Unlock {
                handle: *handle,
                at: *at,
                count: *count,
            },
            Request::QueryDir {
                handle,
                kind,
                expression,
                restart,
                room,
            } => Request::QueryDir {
                handle: *handle,
                kind: *kind,
                expression: expression.copy(alloc)?,
                restart: *restart,
                room: *room,
            },
            Request::Notify {
                handle,
                filter,
                tree,
                room,
            } => Request::Notify {
                handle: *handle,
                filter: *filter,
                tree: *tree,
                room: *room,
            },
            Request::QueryInfo { handle, kind, room } => Request::QueryInfo {
                handle: *handle,
                kind: *kind,
                room: *room,
            },
            Request::SetBasic {
                handle,
                creation,
                access,
                write,
                change,
                attributes,
            } => Request::SetBasic {
                handle: *handle,
                creation: *creation,
                access: *access,
                write: *write,
                change: *change,
                attributes: *attributes,
            },
            Request::SetEnd { handle, length } => Request::SetEnd {
                handle: *handle,
                length: *length,
            },
            Request::SetDisposition { handle, delete } => Request::SetDisposition {
                handle: *handle,
                delete: *delete,
            },
            Request::Rename {
                handle,
                path,
                replace,
            } => Request::Rename {
                handle: *handle,
                path: path.copy(alloc)?,
                replace: *replace,
            },
            Request::Link {
                handle,
                path,
                replace,
            } => Request::Link {
                handle: *handle,
                path: path.copy(alloc)?,
                replace: *replace,
            },
            Request::SetSecurity {
                handle,
                owner,
                dacl,
            } => Request::SetSecurity {
                handle: *handle,
                owner: *owner,
                dacl: dacl.copy(alloc)?,
            },
            Request::SetReparse { handle, bytes } => Request::SetReparse {
                handle: *handle,
                bytes: bytes.copy(alloc)?,
            },
            Request::GetReparse { handle, room } => Request::GetReparse {
                handle: *handle,
                room: *room,
            },
            Request::DeleteReparse { handle, tag } => Request::DeleteReparse {
                handle: *handle,
                tag: *tag,
            },
            Request::SetQuota { sid, limit } => Request::SetQuota {
                sid: *sid,
                limit: *limit,
            },
            Request::QueryQuota { sid } => Request::QueryQuota { sid: *sid },
            Request::Oplock { handle, level } => Request::Oplock {
                handle: *handle,
                level: *level,
            },
            Request::Ack { handle, level } => Request::Ack {
                handle: *handle,
                level: *level,
            },
            Request::Cancel { number } => Request::Cancel { number: *number },
        };
        Ok(made)
    }
}
